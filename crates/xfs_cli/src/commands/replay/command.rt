//! The command `replay`.

ghost use Rattle.xfs_guard.specs.Starts.{Starts};
ghost use Rattle.xfs_cli.specs.Replay.Runs.{RunsReplay};
ghost use Rattle.xfs_lines.specs.Ends.{EndsLines};
ghost use Rattle.xfs_lines.specs.Returns.{back};
ghost use Rattle.xfs_script.specs.Streams.{io_of};
ghost use Rattle.xfs_lines.specs.Headlines.{EndsWell};

use crate::commands::replay::player::Player;
use std::alloc::Global;
use xfs_base::{Sink, Source};
use xfs_disk::Disk;
use xfs_guard::Bench;
use xfs_lines::{Ended, answer_input, cores_of, give_back, give_back_unbooted};
use xfs_machine::Machine;
use xfs_mech::{Mechanism, Watch};

/// Reads replay lines and answers each of them from a machine, before the next line is read.
pub fn replay<S: Source, K: Sink, M: Mechanism, D: Disk, P: Watch, Q: Watch>(
    alloc: Global,
    source: &mut S,
    sink: &mut K,
    bench: Bench<M, D, P, Q>,
) -> Ended<M, D, ()>
    requires starts { Starts M.Mechanism D.Disk bench.core }
    ensures ends { EndsWell M.Mechanism D.Disk bench.core (back result) }
    ensures runs { RunsReplay M.Mechanism D.Disk bench.core (back result) (io_of S.Source K.Sink source.old source.new sink.old sink.new) }
    ensures ends_lines { EndsLines bench.second result (io_of S.Source K.Sink source.old source.new sink.old sink.new) }
{
    let (core, second) = cores_of(bench);
    let key = core.key;
    match Machine::boot(alloc, core) {
        Ok(machine) => {
            let mut player = Player::new(alloc, machine, key);
            let status = answer_input(alloc, &mut player, source, sink);
            let (mech, disk) = player.machine.end();
            give_back(status, mech, disk, second)
        }
        Err(fail) => give_back_unbooted(sink, fail, second),
    }
}
