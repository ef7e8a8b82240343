//! The last line of an output.

ghost use Rattle.std.specs.Prelude.{◌≤◌, ◌∷◌, [], ◌++◌, OnOk, OnErr};
ghost use Rattle.std.specs.Io.KnownBytes.{Appends};
ghost use Rattle.xfs_base.specs.Causes.{HasCause, TookPrefix};
ghost use Rattle.xfs_script.specs.Answered.{lines_text};
ghost use Rattle.xfs_script.specs.LastLines.{WritesLast};
ghost use Rattle.xfs_script.specs.Streams.{output};

use xfs_base::{Sink, WriteFault, write_all};

/// Writes a last line of three parts, and its line feed. It takes no memory; the first fault of the
/// sink ends it.
pub fn write_last_line<K: Sink>(sink: &mut K, first: &[u8], second: &[u8], third: &[u8])
    ensures written { WritesLast ((first.now ++ second.now ++ third.now) ∷ []) (output K.Sink sink.old sink.new) }
    ensures later { K.faults sink.old ≤ K.faults sink.new }
{
    let _ = write_parts(sink, first, second, third);
}

// Writes three parts and a line feed, up to the first fault.
fn write_parts<K: Sink>(
    sink: &mut K,
    first: &[u8],
    second: &[u8],
    third: &[u8],
) -> Result<(), WriteFault>
    ensures ok { OnOk result (Appends (K.held sink.old) (K.held sink.new) (lines_text ((first.now ++ second.now ++ third.now) ∷ []))) }
    ensures err { OnErr result (TookPrefix (K.held sink.old) (K.held sink.new) (lines_text ((first.now ++ second.now ++ third.now) ∷ []))) }
    ensures cause { HasCause (K.faults sink.old) (K.faults sink.new) result }
{
    write_all(sink, first)?;
    write_all(sink, second)?;
    write_all(sink, third)?;
    write_all(sink, b"\n")
}
