//! The command `load`.

ghost use Rattle.std.specs.Prelude.{◌≡◌, ◌≢◌, ◌∷◌, [], IfOk, length};
ghost use Rattle.xfs_guard.specs.Keeps.{Proceeds};
ghost use Rattle.xfs_guard.specs.Starts.{Starts};
ghost use Rattle.xfs_load.specs.Summaries.{summary_line};
ghost use Rattle.xfs_machine.specs.MachineView.{guard_of};
ghost use Rattle.xfs_model.specs.State.{bare};
ghost use Rattle.xfs_script.specs.Answered.{lines_text};
ghost use Rattle.xfs_cli.specs.LoadEnds.{EndsLoad, WritesTextOrNot, output};
ghost use Rattle.xfs_cli.specs.LoadRuns.{RunsLoad};
ghost use Rattle.xfs_lines.specs.Returns.{back, second_back, ComesBack};
ghost use Rattle.xfs_lines.specs.Output.Statuses.{IsStatus};
ghost use Rattle.xfs_script.specs.Streams.{io_of};
ghost use Rattle.xfs_lines.specs.Headlines.{EndsWell};

use std::alloc::Global;
use xfs_base::{Memory, Sink, Source, write_all};
use xfs_disk::Disk;
use xfs_guard::Bench;
use xfs_lines::status::{NO_MEMORY, READ_TO_END, USAGE, WRITE_FAULT};
use xfs_lines::{Ended, cores_of, give_back, give_back_unbooted, with_line_feed};
use xfs_load::{Summary, play};
use xfs_machine::Machine;
use xfs_mech::{Mechanism, Watch};

/// Plays so many rounds of withdrawals on a machine, and writes one line that sums them up. Nothing is read of the
/// input.
pub fn load<S: Source, K: Sink, M: Mechanism, D: Disk, P: Watch, Q: Watch>(
    alloc: Global,
    rounds: u32,
    source: &mut S,
    sink: &mut K,
    bench: Bench<M, D, P, Q>,
) -> Ended<M, D, ()>
    requires starts { Starts M.Mechanism D.Disk bench.core }
    ensures ends { EndsWell M.Mechanism D.Disk bench.core (back result) }
    ensures runs { RunsLoad M.Mechanism D.Disk bench.core rounds (back result) (io_of S.Source K.Sink source.old source.new sink.old sink.new) }
    ensures usage { result.status ≢ USAGE }
    ensures unread { source.new ≡ source.old }
    ensures statuses { IsStatus result.status }
    ensures second { ComesBack bench.second (second_back result) }
{
    let (core, second) = cores_of(bench);
    let key = core.key;
    match Machine::boot(alloc, core) {
        Ok(mut machine) => {
            let status = play_on(alloc, &mut machine, key, rounds, sink);
            let (mech, disk) = machine.end();
            give_back(status, mech, disk, second)
        }
        Err(fail) => give_back_unbooted(sink, fail, second),
    }
}

// Plays the rounds on a machine that has just booted, and writes their line; the status.
fn play_on<K: Sink, M: Mechanism, D: Disk>(
    alloc: Global,
    machine: &mut Machine<M, D>,
    key: [u8; 32],
    rounds: u32,
    sink: &mut K,
) -> u8
    requires booted { machine.old.state ≡ bare machine.old.state.seen machine.old.state.life (length machine.old.state.seen.guard.records) }
    ensures ends { EndsLoad key rounds machine.old.state machine.new.state result (output K.Sink sink.old sink.new) }
    ensures proceeds { Proceeds D.Disk (guard_of machine.old) (guard_of machine.new) }
{
    match play(alloc, machine, key, rounds) {
        Ok(summary) => tell(alloc, &summary, sink),
        Err(Memory) => NO_MEMORY,
    }
}

// Writes the line of a summary; the status.
fn tell<K: Sink>(alloc: Global, summary: &Summary, sink: &mut K) -> u8
    ensures { WritesTextOrNot (lines_text (summary_line summary.now ∷ [])) result (output K.Sink sink.old sink.new) }
{
    let text = match line_of(alloc, summary) {
        Ok(text) => text,
        Err(Memory) => return NO_MEMORY,
    };
    match write_all(sink, &text) {
        Ok(()) => READ_TO_END,
        Err(_) => WRITE_FAULT,
    }
}

fn line_of(alloc: Global, summary: &Summary) -> Result<Vec<u8>, Memory>
    ensures { IfOk result (λ text. text.items ≡ lines_text (summary_line summary.now ∷ [])) }
{
    with_line_feed(summary.line(alloc)?)
}
