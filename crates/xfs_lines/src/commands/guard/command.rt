//! The command `guard`.

ghost use Rattle.xfs_guard.specs.Outcomes.{HandsBack};
ghost use Rattle.xfs_guard.specs.Starts.{Starts};
ghost use Rattle.xfs_lines.specs.Guard.Runs.{RunsGuard};
ghost use Rattle.xfs_lines.specs.Ends.{EndsLines};
ghost use Rattle.xfs_lines.specs.Returns.{back};
ghost use Rattle.xfs_script.specs.Streams.{io_of};
ghost use Rattle.xfs_lines.specs.Headlines.{EndsWell};

use crate::commands::guard::player::GuardPlayer;
use crate::ended::{Ended, cores_of, give_back, give_back_unbooted};
use crate::input::answer_input;
use std::alloc::Global;
use xfs_base::{Sink, Source};
use xfs_disk::Disk;
use xfs_guard::{Bench, Core, Guard};
use xfs_mech::{Mechanism, Watch};
use xfs_token::TokenKey;

/// Reads guard lines and answers each of them, before the next line is read.
pub fn guard<S: Source, K: Sink, M: Mechanism, D: Disk, P: Watch, Q: Watch>(
    alloc: Global,
    source: &mut S,
    sink: &mut K,
    bench: Bench<M, D, P, Q>,
) -> Ended<M, D, ()>
    requires starts { Starts M.Mechanism D.Disk bench.core }
    ensures ends { EndsWell M.Mechanism D.Disk bench.core (back result) }
    ensures runs { RunsGuard M.Mechanism D.Disk bench.core (back result) (io_of S.Source K.Sink source.old source.new sink.old sink.new) }
    ensures ends_lines { EndsLines bench.second result (io_of S.Source K.Sink source.old source.new sink.old sink.new) }
{
    let (core, second) = cores_of(bench);
    let Core {
        mech,
        disk,
        key,
        seed,
        units,
        limits,
        life: _,
    } = core;
    match Guard::boot(alloc, mech, disk, key, seed, units, limits) {
        Ok(guard) => {
            let mut player = GuardPlayer {
                alloc,
                guard,
                key: TokenKey::new(key),
                last: None,
            };
            let status = answer_input(alloc, &mut player, source, sink);
            let (mech, disk) = mech_and_disk(player);
            give_back(status, mech, disk, second)
        }
        Err(fail) => give_back_unbooted(sink, fail, second),
    }
}

// The mechanism and the disk of a player that is over.
fn mech_and_disk<M: Mechanism, D: Disk>(player: GuardPlayer<M, D>) -> (M, D)
    ensures { HandsBack M.Mechanism D.Disk player.guard result.0 result.1 }
{
    let GuardPlayer {
        alloc: _,
        guard,
        key: _,
        last: _,
    } = player;
    guard.end()
}
