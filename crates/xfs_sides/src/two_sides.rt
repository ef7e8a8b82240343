ghost use Rattle.std.specs.Prelude.{◌≡◌, ◌≤◌, IfOk, IfErr, length};
ghost use Rattle.xfs_script.specs.Answered.{IsUnanswered};
ghost use Rattle.xfs_script.specs.declared.feed.TheConstants.{LONGEST_LINE};
ghost use Rattle.xfs_script.specs.declared.answerer.Ending.TheVariants as Ending;
ghost use Rattle.xfs_sides.specs.ReadLines.{HasFleetLines, HasReplayLines};
ghost use Rattle.xfs_sides.specs.Sides.{AnswersAlone, IsMarkedText, unwritten};

use crate::mark::mark_lines;
use std::alloc::Global;
use xfs_base::{Sink, Source};
use xfs_script::{Answerer, Ending, Unanswered, answer_lines, field_of, is_skipped};

/// What answers the lines of a command over two sides: at each side, what answers the lines of the command itself.
/// Neither is touched by the lines of the other.
pub struct TwoSides<A: Answerer> {
    pub alloc: Global,
    pub a: A,
    pub b: A,
}

impl<A: Answerer> Answerer for TwoSides<A> {
    ghost use Rattle.std.proofs.Common.{inl, refl};
    ghost use Rattle.xfs_sides.specs.Sides.{Sides, answered-line, both, sides};

    type End = A::End;

    ghost State = { Sides A.State };

    ghost state = { λ t. both A.state t.a t.b };

    ghost command = { sides A.command };

    ghost Keeps = { λ old new. A.Keeps old.a new.a × A.Keeps old.b new.b };

    fn answer(&mut self, line: &[u8]) -> Result<Vec<u8>, Unanswered<A::End>> {
        if is_skipped(line) {
            return Ok(Vec::new(self.alloc));
        }
        if let Some(behind) = field_of(line, b"a ") {
            return answer_at(self.alloc, b'a', &mut self.a, behind);
        }
        match field_of(line, b"b ") {
            Some(behind) => answer_at(self.alloc, b'b', &mut self.b, behind),
            None => Err(Unanswered::NotALine),
        }
    }

    ghost keeps_same = { λ t. (A.keeps_same t.a, A.keeps_same t.b) };

    ghost keeps_then = { λ s t u first then. (A.keeps_then _ _ _ first.0 then.0, A.keeps_then _ _ _ first.1 then.1) };

    ghost leaves_same = { λ s line. inl refl };

    ghost is_short = { λ line is. is.short };

    ghost is_line = { answered-line A.command A.is_line };
}

/// Has each line of the input answered at its side, and writes its answer before the next line is read. Where the input
/// is read to its end, each side has answered as if it were alone. Where the lines of a side are those of `replay`, the
/// lines of both are those of `fleet`.
pub fn answer_sides<S: Source, K: Sink, A: Answerer>(
    alloc: Global,
    two: &mut TwoSides<A>,
    source: &mut S,
    sink: &mut K,
) -> Ending<A::End>
    ensures keeps_a { A.Keeps two.old.a two.new.a }
    ensures keeps_b { A.Keeps two.old.b two.new.b }
    ensures alone { result ≡ Ending.AtEnd → AnswersAlone A.command A.state two.old two.new (S.left source.old) (K.held sink.old) (K.held sink.new) }
    ensures fleet { HasReplayLines A.command → HasFleetLines A.command }
{
    answer_lines(alloc, two, source, sink)
}

// What a side answers to a line without its two bytes, with these in front of each line of the answer.
fn answer_at<A: Answerer>(
    alloc: Global,
    letter: u8,
    side: &mut A,
    behind: &[u8],
) -> Result<Vec<u8>, Unanswered<A::End>>
    requires short { length behind.now ≤ LONGEST_LINE }
    ensures keeps { A.Keeps side.old side.new }
    ensures answer { IfOk result (λ text. IsMarkedText A.command letter (A.state side.old) behind.now text.items (A.state side.new)) }
    ensures unanswered { IfErr result (λ why. IsUnanswered (unwritten A.command) (A.state side.old) behind.now why (A.state side.new)) }
{
    match side.answer(behind) {
        Ok(text) => match mark_lines(alloc, letter, &text) {
            Ok(marked) => Ok(marked),
            Err(_) => Err(Unanswered::Memory),
        },
        Err(why) => Err(why),
    }
}
