//! What a command gives back.

ghost use Rattle.std.specs.Prelude.{◌≡◌};
ghost use Rattle.xfs_lines.specs.Boots.{boot_line, boot_status};
ghost use Rattle.xfs_lines.specs.Returns.{given_back, untouched};
ghost use Rattle.xfs_script.specs.LastLines.{WritesLast};
ghost use Rattle.xfs_script.specs.Streams.{output};

use crate::output::last_line::finish_unbooted;
use xfs_base::Sink;
use xfs_disk::Disk;
use xfs_guard::{Bench, BootFail, Core};
use xfs_mech::{Mechanism, Watch};

/// How a command ended: with one of the statuses of `status`, the mechanism, the disk of the journal, the link that
/// `client` dialled, and what the second machine worked on. There is no link where none was dialled.
#[derive(Drop)]
pub struct Ended<M: Mechanism, D: Disk, L> {
    pub status: u8,
    pub mech: M,
    pub disk: D,
    pub link: Option<L>,
    pub second: Second<M, D>,
}

/// The mechanism and the disk of the second machine.
#[derive(Drop)]
pub struct Second<M: Mechanism, D: Disk> {
    pub mech: M,
    pub disk: D,
}

/// The core that a command works on, and that of the second machine. The watches go: a server alone takes their news.
pub fn cores_of<M: Mechanism, D: Disk, P: Watch, Q: Watch>(
    bench: Bench<M, D, P, Q>,
) -> (Core<M, D>, Core<M, D>)
    ensures { result ≡ (bench.core, bench.second) }
{
    let Bench {
        core,
        cards,
        keys,
        second,
    } = bench;
    drop(cards);
    drop(keys);
    (core, second)
}

/// Gives back the mechanism and the disk of a command that dialled nothing and left the second machine alone.
pub fn give_back<M: Mechanism, D: Disk, L>(
    status: u8,
    mech: M,
    disk: D,
    second: Core<M, D>,
) -> Ended<M, D, L>
    ensures { result ≡ given_back status mech disk second }
{
    Ended {
        status,
        mech,
        disk,
        link: None,
        second: Second {
            mech: second.mech,
            disk: second.disk,
        },
    }
}

/// Gives back what a refused boot left, once its line was written.
pub fn give_back_unbooted<K: Sink, M: Mechanism, D: Disk, L>(
    sink: &mut K,
    fail: BootFail<M, D>,
    second: Core<M, D>,
) -> Ended<M, D, L>
    ensures ended { result ≡ given_back (boot_status fail.why) fail.mech fail.disk second }
    ensures written { WritesLast (boot_line fail.why) (output K.Sink sink.old sink.new) }
{
    let BootFail { why, mech, disk } = fail;
    give_back(finish_unbooted(sink, why), mech, disk, second)
}

/// Gives back both machines of a bench as they were handed in, and the link that was dialled, if one was.
pub fn give_back_untouched<M: Mechanism, D: Disk, P: Watch, Q: Watch, L>(
    bench: Bench<M, D, P, Q>,
    status: u8,
    link: Option<L>,
) -> Ended<M, D, L>
    ensures { result ≡ untouched bench status link }
{
    let (core, second) = cores_of(bench);
    Ended {
        status,
        mech: core.mech,
        disk: core.disk,
        link,
        second: Second {
            mech: second.mech,
            disk: second.disk,
        },
    }
}
