//! The command `audit`.

ghost use Rattle.std.specs.Prelude.{◌≡◌, ◌≢◌};
ghost use Rattle.xfs_base.specs.Causes.{IfTold, Rose};
ghost use Rattle.xfs_script.specs.Lines.{AllLines, StopsAtLine};
ghost use Rattle.xfs_lines.specs.Audit.Runs.{Audits, Judges, RunsAudit};
ghost use Rattle.xfs_lines.specs.Audit.Verbs.{IsLineOfAudit, handed_of};
ghost use Rattle.xfs_lines.specs.Ends.{EndsLines};
ghost use Rattle.xfs_lines.specs.Returns.{back};
ghost use Rattle.xfs_lines.specs.Output.Statuses.{IsCaused, IsStatus};
ghost use Rattle.xfs_script.specs.Streams.{io_of};

use crate::commands::audit::answer::Auditor;
use crate::ended::{Ended, give_back_untouched};
use crate::output::last_line::finish;
use crate::output::status::{
    DISK_FAULT, JOURNAL_FULL, NO_MEMORY, NOT_A_JOURNAL, NOT_A_LINE, READ_TO_END, USAGE, WRITE_FAULT,
};
use std::alloc::Global;
use xfs_base::{Memory, Sink, Source, UnitTable, write_all};
use xfs_disk::Disk;
use xfs_guard::Bench;
use xfs_mech::{Mechanism, Watch};
use xfs_script::{Ending, answer_lines};

/// Reads lines of a journal and of a mechanism's list, and answers at their end which rule they break, under the core's
/// key and units.
pub fn audit<S: Source, K: Sink, M: Mechanism, D: Disk, P: Watch, Q: Watch>(
    alloc: Global,
    source: &mut S,
    sink: &mut K,
    bench: Bench<M, D, P, Q>,
) -> Ended<M, D, ()>
    ensures runs { RunsAudit bench.core (back result) (io_of S.Source K.Sink source.old source.new sink.old sink.new) }
    ensures ends_lines { EndsLines bench.second result (io_of S.Source K.Sink source.old source.new sink.old sink.new) }
{
    let status = judge(alloc, &bench.core.key, &bench.core.units, source, sink);
    give_back_untouched(bench, status, None)
}

// Takes in each line of the input, writes the verdict or the last line, and gives the status.
fn judge<S: Source, K: Sink>(
    alloc: Global,
    key: &[u8; 32],
    units: &UnitTable,
    source: &mut S,
    sink: &mut K,
) -> u8
    ensures audits { IfTold (S.left source.old) (Audits key.now units.now result (io_of S.Source K.Sink source.old source.new sink.old sink.new)) }
    ensures lines { result ≡ READ_TO_END → IfTold (S.left source.old) (AllLines IsLineOfAudit) }
    ensures not_a_line { result ≡ NOT_A_LINE → IfTold (S.left source.old) (StopsAtLine IsLineOfAudit) }
    ensures usage { result ≢ USAGE }
    ensures unbooted { (result ≢ DISK_FAULT) × (result ≢ NOT_A_JOURNAL) × (result ≢ JOURNAL_FULL) }
    ensures statuses { IsStatus result }
    ensures causes { IsCaused result (io_of S.Source K.Sink source.old source.new sink.old sink.new) }
{
    let mut auditor = Auditor::new(alloc);
    match answer_lines(alloc, &mut auditor, source, sink) {
        Ending::AtEnd => conclude(&auditor, key, units, sink),
        ending => finish(sink, ending),
    }
}

// Writes the verdict of what was handed in.
fn conclude<K: Sink>(auditor: &Auditor, key: &[u8; 32], units: &UnitTable, sink: &mut K) -> u8
    ensures judges { Judges key.now units.now (handed_of auditor.now) result (K.held sink.old) (K.held sink.new) }
    ensures write { result ≡ WRITE_FAULT → Rose (K.faults sink.old) (K.faults sink.new) }
{
    match auditor.verdict(key, units) {
        Ok(line) => match write_all(sink, line) {
            Ok(()) => READ_TO_END,
            Err(_) => WRITE_FAULT,
        },
        Err(Memory) => NO_MEMORY,
    }
}
