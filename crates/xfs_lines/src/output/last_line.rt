//! The last line of the output, and the status that goes with it.

ghost use Rattle.std.specs.Prelude.{◌≡◌, ◌≤◌, ◌∷◌, []};
ghost use Rattle.xfs_lines.specs.Boots.{boot_status, boot_line};
ghost use Rattle.xfs_lines.specs.Output.InputEnds.{ending_line, ending_status, usage_line};
ghost use Rattle.xfs_script.specs.LastLines.{WritesLast};
ghost use Rattle.xfs_script.specs.Streams.{output};

use crate::output::status::{
    DISK_FAULT, INPUT_TOO_LONG, JOURNAL_FULL, NO_MEMORY, NOT_A_JOURNAL, NOT_A_LINE, READ_FAULT,
    READ_TO_END, WRITE_FAULT,
};
use itoa::Buffer;
use xfs_base::Sink;
use xfs_guard::BootFault;
use xfs_script::{Ending, write_last_line};

/// The status of an ending, once its last line was written, if it has one.
pub fn finish<K: Sink>(sink: &mut K, ending: Ending<BootFault>) -> u8
    ensures status { result ≡ ending_status ending }
    ensures written { WritesLast (ending_line ending) (output K.Sink sink.old sink.new) }
    ensures later { K.faults sink.old ≤ K.faults sink.new }
{
    match ending {
        Ending::AtEnd => READ_TO_END,
        Ending::Read => READ_FAULT,
        Ending::Quota => {
            write_last_line(sink, b"input: too long", b"", b"");
            INPUT_TOO_LONG
        }
        Ending::NotALine { number } => {
            let mut digits = Buffer::new();
            write_last_line(
                sink,
                b"line ",
                digits.format(number).as_bytes(),
                b": not a script line",
            );
            NOT_A_LINE
        }
        Ending::Write => WRITE_FAULT,
        Ending::Memory => NO_MEMORY,
        Ending::Ended(why) => finish_unbooted(sink, why),
    }
}

/// The status of a refused boot, once its line was written.
pub fn finish_unbooted<K: Sink>(sink: &mut K, fault: BootFault) -> u8
    ensures status { result ≡ boot_status fault }
    ensures written { WritesLast (boot_line fault) (output K.Sink sink.old sink.new) }
    ensures later { K.faults sink.old ≤ K.faults sink.new }
{
    match fault {
        BootFault::NotJournal { at } => {
            let mut digits = Buffer::new();
            write_last_line(
                sink,
                b"boot: ",
                b"not a journal at ",
                digits.format(at).as_bytes(),
            );
            NOT_A_JOURNAL
        }
        BootFault::Disk => {
            write_last_line(sink, b"boot: disk", b"", b"");
            DISK_FAULT
        }
        BootFault::Full => {
            write_last_line(sink, b"boot: journal full", b"", b"");
            JOURNAL_FULL
        }
        BootFault::Memory => NO_MEMORY,
    }
}

/// Writes the commands that there are.
pub fn write_usage<K: Sink>(sink: &mut K)
    ensures written { WritesLast (usage_line ∷ []) (output K.Sink sink.old sink.new) }
{
    write_last_line(
        sink,
        b"usage: xfs guard | token | replay | load N | serve N | client CUR AMOUNT | host | audit | fleet",
        b"",
        b"",
    );
}
