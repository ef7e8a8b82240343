//! Runs over the lines of an input.

ghost use Rattle.std.specs.Prelude.{None};

use std::alloc::{AllocError, Global};
use std::cell::Cell;
use std::test::Fail;
use xfs_base::{Failed, MemSink, MemSource, Sink, Source};
use xfs_script::{Answerer, Ending, Unanswered, answer_lines};
use xfs_sides::{TwoSides, answer_sides};

/// Answers a line by itself. `no` is no line of it, and it ends at `end`.
#[derive(Drop)]
struct Echo {
    alloc: Global,
}

impl Answerer for Echo {
    ghost use Rattle.std.specs.Prelude.{◌≡◌, ◌≤◌, ◌∷◌, [], codes, length, ⊤};

    type End = u8;

    ghost State = { Unit {0} };

    ghost state = { λ _. tt };

    ghost command = { record {
      IsLine = λ line. (length line ≤ 70000) × ¬ (line ≡ codes "no");
      Answers = λ _ line output _. ((length line ≤ 70000) × ¬ (line ≡ codes "no")) × (output ≡ line ∷ []);
      Leaves = λ _ _ _. ⊤;
      EndsAt = λ _ line _ _. line ≡ codes "end";
    } };

    ghost Keeps = { λ _ _. ⊤ };

    fn answer(&mut self, line: &[u8]) -> Result<Vec<u8>, Unanswered<u8>> {
        if line == b"no".as_slice() {
            return Err(Unanswered::NotALine);
        }
        if line == b"end".as_slice() {
            return Err(Unanswered::Ends(7));
        }
        let Ok(mut text) = Vec::from_slice(self.alloc, line) else {
            return Err(Unanswered::Memory);
        };
        match text.push(b'\n') {
            Ok(()) => Ok(text),
            Err(_) => Err(Unanswered::Memory),
        }
    }

    ghost keeps_same = { λ _. tt };

    ghost keeps_then = { λ _ _ _ _ _. tt };

    ghost leaves_same = { λ _ _. tt };

    ghost is_short = { λ line is. is.0 };

    ghost is_line = { λ _ _ line output answer. answer.0 };
}

// Whether an input is answered so and ends so.
fn ends(alloc: Global, input: &[u8], output: &[u8], due: Ending<u8>) -> Result<bool, AllocError> {
    let mut source = MemSource::new(input.to_vec(alloc)?, Vec::new(alloc));
    let mut sink = MemSink::new(alloc, Vec::new(alloc));
    let ending = answer_lines(alloc, &mut Echo { alloc }, &mut source, &mut sink);
    Ok(ending == due && sink.bytes() == output)
}

#[test]
fn a_run_ends_with_its_input_or_at_a_line(rt: HostRuntime) -> Result<(), Fail> {
    let alloc = rt.alloc();
    let table: [(&[u8], &[u8], Ending<u8>); 6] = [
        (b"", b"", Ending::AtEnd),
        (b"a\n\nb", b"a\n\nb\n", Ending::AtEnd),
        (b"a\nno\nb\n", b"a\n", Ending::NotALine { number: 2 }),
        (b"a\nb\nend\nno\n", b"a\nb\n", Ending::Ended(7)),
        (b"no", b"", Ending::NotALine { number: 1 }),
        (b"end", b"", Ending::Ended(7)),
    ];
    for (input, output, due) in table {
        assert!(rt; ends(alloc, input, output, due)?);
    }
    Ok(())
}

// The same of two sides.
fn sides_end(
    alloc: Global,
    input: &[u8],
    output: &[u8],
    due: Ending<u8>,
) -> Result<bool, AllocError> {
    let mut source = MemSource::new(input.to_vec(alloc)?, Vec::new(alloc));
    let mut sink = MemSink::new(alloc, Vec::new(alloc));
    let mut two = TwoSides {
        alloc,
        a: Echo { alloc },
        b: Echo { alloc },
    };
    let ending = answer_sides(alloc, &mut two, &mut source, &mut sink);
    let TwoSides { alloc: _, a, b } = two;
    drop(a);
    drop(b);
    Ok(ending == due && sink.bytes() == output)
}

// What is skipped reaches neither side, and what a side's two bytes stand before reaches that one.
#[test]
fn each_side_answers_its_own_lines(rt: HostRuntime) -> Result<(), Fail> {
    let alloc = rt.alloc();
    let table: [(&[u8], &[u8], Ending<u8>); 6] = [
        (b"a x\nb y\n\n#a z\n", b"a x\nb y\n", Ending::AtEnd),
        (b"a \nb #\nb b z", b"a \nb #\nb b z\n", Ending::AtEnd),
        (b"a x\nc y\n", b"a x\n", Ending::NotALine { number: 2 }),
        (b"b no", b"", Ending::NotALine { number: 1 }),
        (b"a\n", b"", Ending::NotALine { number: 1 }),
        (b"b x\na end\nb y\n", b"b x\n", Ending::Ended(7)),
    ];
    for (input, output, due) in table {
        assert!(rt; sides_end(alloc, input, output, due)?);
    }
    Ok(())
}

/// Counts the lines that it takes.
#[derive(Drop)]
struct Tally<'a> {
    taken: &'a Cell<u32>,
}

impl<'a> Sink for Tally<'a> {
    ghost held = { λ _. None };

    ghost faults = { λ _. 0 };

    fn write(&mut self, bytes: &[u8]) -> Result<usize, Failed> {
        if bytes.ends_with(b"\n") {
            self.taken.set(self.taken.get().saturating_add(1));
        }
        Ok(bytes.len())
    }
}

/// Gives a line a call, and sees whether the answers to those before were taken.
#[derive(Drop)]
struct Watching<'a> {
    taken: &'a Cell<u32>,
    given: u32,
    early: bool,
}

impl<'a> Source for Watching<'a> {
    ghost left = { λ _. None };

    ghost faults = { λ _. 0 };

    fn read(&mut self, into: &mut [u8]) -> Result<usize, Failed> {
        if self.taken.get() < self.given {
            self.early = true;
        }
        if self.given >= 5 || into.len() < 2 {
            return Ok(0);
        }
        self.given += 1;
        into[..2].copy_from_slice(b"a\n");
        Ok(2)
    }
}

#[test]
fn each_answer_is_taken_before_the_next_line_is_read(rt: HostRuntime) -> Result<(), Fail> {
    let alloc = rt.alloc();
    let taken = Cell::new(0);
    let mut source = Watching {
        taken: &taken,
        given: 0,
        early: false,
    };
    let ending = answer_lines(
        alloc,
        &mut Echo { alloc },
        &mut source,
        &mut Tally { taken: &taken },
    );
    assert!(rt; ending == Ending::AtEnd);
    assert!(rt; !source.early && taken.get() == 5);
    Ok(())
}
