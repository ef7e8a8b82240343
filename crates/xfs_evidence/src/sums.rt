//! What was presented in a segment.

ghost use Rattle.std.specs.Prelude.{◌≡◌, ◌<◌, ◌≤◌, ◌^◌, ℕ, List, [], true, false, length, unwrap_or};
ghost use Rattle.std.specs.List.{list_any};
ghost use Rattle.xfs_journal.specs.Journal.{is_mark};
ghost use Rattle.xfs_token.specs.Amounts.{has_currency, is_currency};
ghost use Rattle.xfs_guard.specs.Presented as guard;
ghost use Rattle.xfs_evidence.specs.Sums as sums;
ghost use Rattle.xfs_evidence.specs.Sums.{AreSegmentSums};

use crate::currencies::next_currency;
use crate::segment::is_present;
use xfs_base::{Currency, Milli, UnitTable};
use xfs_journal::Rec;
use xfs_token::Amounts;

/// What was presented in a segment, in each currency of which something was, in the order of the currencies' bytes.
pub fn amounts_presented(units: &UnitTable, segment: &[Rec]) -> Option<Amounts>
    requires unmarked { list_any is_mark segment.now ≡ false }
    requires small { (currency : List ℕ) → guard.presented_in units.now segment.now currency ≤ 999999999999 }
    ensures { AreSegmentSums units.now segment.now (unwrap_or result []) }
{
    prove!(units.len() <= 8);
    let mut told = None;
    let mut last = None;
    'currencies: while let Some(currency) = next_currency(units, &last) {
        let worth = worth_presented(units, segment, currency);
        told = with_worth(told, currency, worth);
        last = Some(currency);
    }
    told
}

// One more amount behind the others, where it isn't 0.
fn with_worth(told: Option<Amounts>, currency: Currency, worth: u64) -> Option<Amounts>
    requires small { worth ≤ 999999999999 }
    requires few { length (unwrap_or told []) ≤ 8 }
    requires new { has_currency currency (unwrap_or told []) ≡ false }
    ensures { unwrap_or result [] ≡ sums.with_worth (unwrap_or told []) currency worth }
{
    if worth == 0 {
        return told;
    }
    let Some(mut amounts) = told else {
        return Amounts::one(currency, Milli(worth));
    };
    if !amounts.add(currency, Milli(worth)) {
        unreachable!();
    }
    Some(amounts)
}

// What was presented in one currency, in thousandths.
fn worth_presented(units: &UnitTable, segment: &[Rec], currency: Currency) -> u64
    requires unmarked { list_any is_mark segment.now ≡ false }
    requires small { guard.presented_in units.now segment.now currency ≤ 999999999999 }
    ensures worth { result ≡ guard.presented_in units.now segment.now currency }
    ensures letters { is_currency currency ≡ true }
{
    let _letters = currency.letters();
    let mut ordered = false;
    let mut worth = 0u64;
    for i in 0..segment.len() {
        let entry = &segment[i];
        worth += worth_added(units, ordered, entry, currency) as u64;
        ordered = is_present(entry);
    }
    worth
}

// What a record adds, where an order to present stands before it or not.
fn worth_added(units: &UnitTable, ordered: bool, entry: &Rec, currency: Currency) -> u128
    ensures worth { result ≡ sums.added units.now ordered entry.now currency }
    ensures small { result < 2 ^ 65 }
{
    match entry {
        Rec::Done { moved, .. } if ordered => moved.value(units, currency),
        _ => 0,
    }
}
