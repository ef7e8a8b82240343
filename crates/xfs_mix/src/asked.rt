ghost use Rattle.std.specs.Prelude.{◌≡◌, ◌<◌, IfSome};
ghost use Rattle.std.specs.Result.{result_err};
ghost use Rattle.xfs_mix.specs.Asked.{count_fault, first_short, is_none};

use thiserror::Error;
use xfs_base::{Counts, UnitTable};

/// Why counts of notes can't be dispensed.
#[derive(Clone, Copy, Debug, PartialEq, Eq, Error)]
pub enum CountFault {
    /// All counts are 0, or one past the unit table isn't.
    #[error("no notes of the units are asked")]
    Empty,
    /// More than 60 notes.
    #[error("more than 60 notes are asked")]
    TooMany,
    /// The first unit, from 1, that holds fewer notes than are asked.
    #[error("unit {unit} has too few notes")]
    Short { unit: u8 },
}

/// Whether counts of notes may be dispensed from what the units hold. It takes no memory.
pub fn check(units: &UnitTable, have: &Counts, counts: &Counts) -> Result<(), CountFault>
    ensures refused { result_err result ≡ count_fault units.now have.now counts.now }
{
    if is_none(&counts.0) || !is_none(&counts.0[usize::from(units.len())..]) {
        return Err(CountFault::Empty);
    }
    if counts.notes() > 60 {
        return Err(CountFault::TooMany);
    }
    match first_short(have, counts) {
        Some(at) => Err(CountFault::Short { unit: at as u8 + 1 }),
        None => Ok(()),
    }
}

fn is_none(counts: &[u32]) -> bool
    ensures { result ≡ is_none counts.now }
{
    counts.iter().all(|count| *count == 0)
}

fn first_short(have: &Counts, counts: &Counts) -> Option<usize>
    ensures place { result ≡ first_short have.now counts.now }
    ensures bound { IfSome result (λ at. at < 8) }
{
    have.0
        .iter()
        .zip(counts.0.iter())
        .position(|(held, asked)| *held < *asked)
}
