ghost use Rattle.std.specs.Prelude.{◌≡◌, ◌≤◌, ℕ, List, IfOk, IfErr, length};
ghost use Rattle.xfs_script.specs.Answered.{IsAnswerText, IsUnanswered};
ghost use Rattle.xfs_script.specs.Commands.{Command};
ghost use Rattle.xfs_script.specs.declared.feed.TheConstants.{LONGEST_LINE};

/// Why a line has no answer.
#[derive(Debug, Drop, PartialEq, Eq)]
pub enum Unanswered<E> {
    /// The line is none of the command's, and nothing was done.
    NotALine,
    /// Memory ran out. The command says what it leaves of a line then.
    Memory,
    /// The command ends at this line, for a reason of its own.
    Ends(E),
}

/// Why no further line is answered.
#[derive(Debug, Drop, PartialEq, Eq)]
pub enum Ending<E> {
    /// The input was read to its end.
    AtEnd,
    /// The source failed.
    Read,
    /// The source gave 67,108,864 bytes.
    Quota,
    /// The line of this number is none of the command's.
    NotALine { number: u64 },
    /// The sink failed.
    Write,
    /// Memory ran out.
    Memory,
    /// The command ended, for a reason of its own.
    Ended(E),
}

/// What answers the lines of a command, one after another.
pub trait Answerer {
    /// A reason of its own to end at a line.
    type End;

    /// What its answers tell and change.
    ghost State: { Type 0 };

    ghost state: { Self → State };

    /// Its lines, and what answers them.
    ghost command: { Command State Self.End };

    /// What is kept from line to line.
    ghost Keeps: { Self → Self → Type 0 };

    /// Answers a line, given without its end: the lines of the answer, a line feed behind each.
    fn answer(&mut self, line: &[u8]) -> Result<Vec<u8>, Unanswered<Self::End>>
        requires short { length line.now ≤ LONGEST_LINE }
        ensures keeps { Keeps self.old self.new }
        ensures answer { IfOk result (λ text. IsAnswerText (command.Answers (state self.old) line.now) text.items (state self.new)) }
        ensures unanswered { IfErr result (λ why. IsUnanswered command (state self.old) line.now why (state self.new)) };

    ghost keeps_same: { (a : Self) → Keeps a a };

    ghost keeps_then: { (a b c : Self) → Keeps a b → Keeps b c → Keeps a c };

    ghost leaves_same: { (s : State) (line : List ℕ) → command.Leaves s line s };

    ghost is_short: { (line : List ℕ) → command.IsLine line → length line ≤ LONGEST_LINE };

    ghost is_line: { (s next : State) (line : List ℕ) (output : List (List ℕ)) → command.Answers s line output next → command.IsLine line };
}
