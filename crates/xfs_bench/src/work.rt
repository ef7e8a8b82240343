ghost use Rattle.std.specs.Prelude.{◌≤◌};

use std::alloc::Global;

/// A piece of work that is done over and over.
pub(crate) trait Work {
    /// Does it once, and tells whether its answer is the right one.
    fn is_right(&self, alloc: Global) -> bool;
}

/// How many of so many rounds had the right answer.
pub(crate) fn right_rounds<W: Work>(alloc: Global, work: &W, rounds: u64) -> u64
    ensures { result ≤ rounds }
{
    let mut right = 0;
    for _ in 0..rounds {
        if work.is_right(alloc) {
            right += 1;
        }
    }
    right
}
