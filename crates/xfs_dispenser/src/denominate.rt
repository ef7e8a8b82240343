//! Which notes a denomination gives.

ghost use Rattle.std.specs.Prelude.{◌≡◌, ◌≢◌, ◌≤◌, None, Err};
ghost use Rattle.xfs_mix.specs.Asked.{count_fault};
ghost use Rattle.xfs_dispenser.specs.Denominations.{FirstOf, MixGiven, NotesGiven, currency_refusal, given_unless, has_currency, members_refusal};
ghost use Rattle.xfs_dispenser.specs.declared.refusal.Refusal.TheVariants as Refusal;

use crate::named::Named;
use crate::notes::Notes;
use crate::refusal::Refusal;
use std::alloc::Global;
use xfs_base::{Counts, Currency, NoteKind, UnitTable};
use xfs_common::ErrorCode;
use xfs_mix::{CountFault, MixFault, check, least};

/// Whether a denomination's amount is in its range, from 1 to 1,000,000.
pub(crate) fn members_refusal(notes: &Notes) -> Option<Refusal>
    ensures { result ≡ members_refusal notes.now }
{
    match notes {
        Notes::Least { amount, .. } if *amount == 0 || *amount > 1_000_000 => {
            Some(Refusal::InvalidData)
        }
        _ => None,
    }
}

// The notes that are given of those in the units, once the amount is in its range.
pub(crate) fn notes_given(
    alloc: Global,
    units: &UnitTable,
    have: &Counts,
    notes: &Notes,
) -> Result<Counts, Refusal>
    requires { members_refusal notes.now ≡ None }
    ensures { result ≢ Err Refusal.Memory → NotesGiven units.now have.now notes.now result }
{
    match notes {
        Notes::Least { currency, amount } => least_given(alloc, units, have, *currency, *amount),
        Notes::Individual(Named::OtherName) => Err(Refusal::Error(ErrorCode::InvalidDenomination)),
        Notes::Individual(Named::These(counts)) => counts_given(units, have, counts),
    }
}

fn least_given(
    alloc: Global,
    units: &UnitTable,
    have: &Counts,
    currency: Currency,
    amount: u32,
) -> Result<Counts, Refusal>
    requires amount { (1 ≤ amount) × (amount ≤ 1000000) }
    ensures { result ≢ Err Refusal.Memory → FirstOf (currency_refusal units.now currency) (MixGiven units.now have.now currency amount) result }
{
    if !has_currency(units.kinds(), currency) {
        return Err(Refusal::Error(ErrorCode::InvalidCurrency));
    }
    match least(alloc, units, have, currency, amount) {
        Ok(counts) => Ok(counts),
        Err(MixFault::Nothing) => Err(Refusal::Error(ErrorCode::NotDispensable)),
        Err(MixFault::TooMany) => Err(Refusal::Error(ErrorCode::TooManyItems)),
        Err(MixFault::Memory) => Err(Refusal::Memory),
    }
}

fn has_currency(kinds: &[NoteKind], currency: Currency) -> bool
    ensures { result ≡ has_currency kinds.now currency }
{
    kinds.iter().any(|kind| kind.currency == currency)
}

fn counts_given(units: &UnitTable, have: &Counts, counts: &Counts) -> Result<Counts, Refusal>
    ensures { result ≡ given_unless counts.now (count_fault units.now have.now counts.now) }
{
    match check(units, have, counts) {
        Ok(()) => Ok(*counts),
        Err(CountFault::Empty) => Err(Refusal::Error(ErrorCode::InvalidDenomination)),
        Err(CountFault::TooMany) => Err(Refusal::Error(ErrorCode::TooManyItems)),
        Err(CountFault::Short { .. }) => Err(Refusal::Error(ErrorCode::NotDispensable)),
    }
}
