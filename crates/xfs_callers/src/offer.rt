//! A caller of xfs_mix.

ghost use Rattle.std.specs.Prelude.{◌≡◌, ◌≤◌, IfOk, IfSome, None, Ok, sum};
ghost use Rattle.xfs_callers.specs.Offer.{TakesTooMany};
ghost use Rattle.xfs_mix.specs.Mix.{IsLeast, IsMix};

use std::alloc::Global;
use xfs_base::{Counts, Currency, Memory, UnitTable};
use xfs_mix::{MixFault, least};

/// The notes that a customer is offered for an amount from 1 to 1,000,000: as few as there can be. None where there are
/// no such notes, or more than 60 of them.
pub fn notes_for(
    alloc: Global,
    units: &UnitTable,
    have: &Counts,
    currency: Currency,
    amount: u32,
) -> Result<Option<Counts>, Memory>
    ensures mix { IfOk result (λ found. IfSome found (IsMix units.now have.now currency amount)) }
    ensures least { IfOk result (λ found. IfSome found (IsLeast units.now have.now currency amount)) }
    ensures notes { IfOk result (λ found. IfSome found (λ notes. sum notes.0 ≤ 60)) }
    ensures none { result ≡ Ok None → TakesTooMany units.now have.now currency amount }
{
    if amount == 0 || amount > 1_000_000 {
        return Ok(None);
    }
    match least(alloc, units, have, currency, amount) {
        Ok(notes) => Ok(Some(notes)),
        Err(MixFault::Nothing | MixFault::TooMany) => Ok(None),
        Err(MixFault::Memory) => Err(Memory),
    }
}
