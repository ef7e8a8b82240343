ghost use Rattle.std.specs.Prelude.{◌≡◌, ◌≤◌, List, ℕ, length, OnOk, IfErr};
ghost use Rattle.xfs_base.specs.Causes.{IfTold, Rose};
ghost use Rattle.xfs_script.specs.Lines.{AllLines, StopsAtLine};
ghost use Rattle.xfs_script.specs.Endings.{AnswersTold, BreaksAtLine, EndsAfter, HasEndCause, WritesAnswer};
ghost use Rattle.xfs_script.specs.Streams.{io_of, output};
ghost use Rattle.xfs_script.specs.declared.answerer.Ending.TheVariants as Ending;
ghost use Rattle.xfs_script.specs.declared.feed.TheConstants.{LONGEST_LINE};

use crate::answerer::{Answerer, Ending, Unanswered};
use crate::feed::Feed;
use crate::line::LineFault;
use std::alloc::Global;
use xfs_base::{Sink, Source, write_all};

/// Has each line of the input answered, and writes its answer before the next line is read, until the
/// input ends, a line has no answer, or something fails.
pub fn answer_lines<S: Source, K: Sink, A: Answerer>(
    alloc: Global,
    answerer: &mut A,
    source: &mut S,
    sink: &mut K,
) -> Ending<A::End>
    ensures keeps { A.Keeps answerer.old answerer.new }
    ensures answers { AnswersTold A.state A.command result answerer.old answerer.new (io_of S.Source K.Sink source.old source.new sink.old sink.new) }
    ensures lines { result ≡ Ending.AtEnd → IfTold (S.left source.old) (AllLines A.command.IsLine) }
    ensures not_a_line { (number : ℕ) → result ≡ Ending.NotALine number → IfTold (S.left source.old) (StopsAtLine A.command.IsLine) }
    ensures ended { (why : A.End) → result ≡ Ending.Ended why → EndsAfter A.Keeps A.state A.command answerer.old why (A.state answerer.new) }
    ensures causes { HasEndCause result (io_of S.Source K.Sink source.old source.new sink.old sink.new) }
{
    let Ok(mut feed) = Feed::new(alloc) else {
        return Ending::Memory;
    };
    for _ in 0..u64::MAX {
        match feed.find_line(source) {
            Ok(None) => return Ending::AtEnd,
            Ok(Some(end)) => match answer_line(answerer, feed.number(), feed.line(end), sink) {
                Ok(()) => feed.pass(end),
                Err(ending) => return ending,
            },
            Err(LineFault::Read) => return Ending::Read,
            Err(LineFault::Quota) => return Ending::Quota,
            Err(LineFault::TooLong { number }) => return Ending::NotALine { number },
            Err(LineFault::Memory) => return Ending::Memory,
        }
    }
    // No input has so many lines.
    Ending::Memory
}

// Has a line answered, and writes the answer.
fn answer_line<K: Sink, A: Answerer>(
    answerer: &mut A,
    number: u64,
    line: &[u8],
    sink: &mut K,
) -> Result<(), Ending<A::End>>
    requires short { length line.now ≤ LONGEST_LINE }
    ensures keeps { A.Keeps answerer.old answerer.new }
    ensures ok { OnOk result (WritesAnswer (A.command.Answers (A.state answerer.old) line.now) (A.state answerer.new) (output K.Sink sink.old sink.new)) }
    ensures err { IfErr result (BreaksAtLine A.command number line.now (A.state answerer.old) (A.state answerer.new) (output K.Sink sink.old sink.new)) }
    ensures later { K.faults sink.old ≤ K.faults sink.new }
    ensures cause { IfErr result (λ ending. ending ≡ Ending.Write → Rose (K.faults sink.old) (K.faults sink.new)) }
{
    match answerer.answer(line) {
        Ok(text) => match write_all(sink, &text) {
            Ok(()) => Ok(()),
            Err(_) => Err(Ending::Write),
        },
        Err(Unanswered::NotALine) => Err(Ending::NotALine { number }),
        Err(Unanswered::Memory) => Err(Ending::Memory),
        Err(Unanswered::Ends(end)) => Err(Ending::Ended(end)),
    }
}
