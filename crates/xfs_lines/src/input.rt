//! The lines of a command, answered to their end.

ghost use Rattle.xfs_script.specs.Streams.{io_of};
ghost use Rattle.xfs_lines.specs.Output.InputEnds.{IsAnswered};

use crate::output::last_line::finish;
use std::alloc::Global;
use xfs_base::{Sink, Source};
use xfs_guard::BootFault;
use xfs_script::{Answerer, answer_lines};

/// Has each line of the input answered, writes the last line, if there is one, and gives the status.
pub fn answer_input<S: Source, K: Sink, A: Answerer<End = BootFault>>(
    alloc: Global,
    answerer: &mut A,
    source: &mut S,
    sink: &mut K,
) -> u8
    ensures { IsAnswered A.Keeps A.state A.command answerer.old answerer.new result (io_of S.Source K.Sink source.old source.new sink.old sink.new) }
{
    let ending = answer_lines(alloc, answerer, source, sink);
    finish(sink, ending)
}
