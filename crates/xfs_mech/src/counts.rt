//! Counts of notes, added and taken from one another unit by unit.

ghost use Rattle.std.specs.Prelude.{◌≡◌, ℕ, ◌+◌, ◌≤◌, ◌↔◌, IsTrue};
ghost use Rattle.xfs_base.specs.Counts.{at, LiesIn};
ghost use Rattle.xfs_mech.specs.Faults.{first_notes};

use xfs_base::Counts;

/// Whether counts lie within others, unit by unit.
pub fn lies_in(a: &Counts, b: &Counts) -> bool
    ensures { IsTrue result ↔ LiesIn a.now b.now }
{
    for i in 0..8 {
        if a.0[i] > b.0[i] {
            return false;
        }
    }
    true
}

pub(crate) fn plus(a: &Counts, b: &Counts) -> Counts
    requires { (u : ℕ) → at a.now u + at b.now u ≤ 4000000000 }
    ensures { (u : ℕ) → at result u ≡ at a.now u + at b.now u }
{
    let mut sum = a.0;
    for i in 0..8 {
        sum[i] += b.0[i];
    }
    Counts(sum)
}

pub(crate) fn minus(a: &Counts, b: &Counts) -> Counts
    requires { LiesIn b.now a.now }
    ensures { (u : ℕ) → at result u + at b.now u ≡ at a.now u }
{
    let mut rest = a.0;
    for i in 0..8 {
        rest[i] -= b.0[i];
    }
    Counts(rest)
}

// The first so many notes, lower units first.
pub(crate) fn front(counts: &Counts, many: u64) -> Counts
    ensures { (u : ℕ) → at result u ≡ first_notes counts.now many u }
{
    let mut left = many;
    let mut first = [0u32; 8];
    for i in 0..8 {
        let count = counts.0[i];
        first[i] = left.min(u64::from(count)) as u32;
        left = left.saturating_sub(u64::from(count));
    }
    Counts(first)
}
