//! The last line of the output.

ghost use Rattle.std.specs.Prelude.{◌≤◌};
ghost use Rattle.xfs_script.specs.LastLines.{WritesLast};
ghost use Rattle.xfs_script.specs.Streams.{output};
ghost use Rattle.xfs_withdraw.specs.Endings.{withdrawal_line};

use crate::Ending;
use xfs_base::Sink;
use xfs_script::write_last_line;

/// Writes the last line of an ending, if it has one.
pub fn finish<K: Sink>(sink: &mut K, ending: Ending)
    ensures written { WritesLast (withdrawal_line ending) (output K.Sink sink.old sink.new) }
    ensures later { K.faults sink.old ≤ K.faults sink.new }
{
    match ending {
        Ending::Done => write_last_line(sink, b"withdrawal done", b"", b""),
        Ending::Ended(code) => write_last_line(
            sink,
            b"withdrawal ended: ",
            code.text().as_bytes(),
            b"",
        ),
        Ending::Refused(status) => write_last_line(
            sink,
            b"withdrawal refused: ",
            status.text().as_bytes(),
            b"",
        ),
        Ending::BadAnswer => write_last_line(sink, b"withdrawal ended: bad answer", b"", b""),
        Ending::Closed => write_last_line(sink, b"withdrawal ended: closed", b"", b""),
        Ending::Quiet => write_last_line(sink, b"withdrawal ended: quiet", b"", b""),
        Ending::Failed | Ending::Memory => {}
    }
}
