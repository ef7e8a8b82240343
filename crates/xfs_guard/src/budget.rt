//! Whether counts exceed the amounts of a token.

ghost use Rattle.std.specs.Prelude.{◌≡◌, ◌<◌, ◌^◌};
ghost use Rattle.xfs_guard.specs.OverBudget.{spent, is_over, earlier, first_currency, over_budget_in};
ghost use Rattle.xfs_guard.specs.LedgerView.{TellsPresented};

use crate::Deny;
use crate::ledger::Ledger;
use xfs_base::{Counts, Currency, Milli};
use xfs_disk::Disk;
use xfs_token::Amounts;

/// `OverBudget`, for the first currency, in the order of letters, in which the counts exceed the amounts.
pub fn over_budget<D: Disk>(
    ledger: &Ledger<D>,
    transport: &Counts,
    amounts: &Amounts,
    counts: &Counts,
) -> Option<Deny>
    requires tells { TellsPresented ledger.now }
    ensures { result ≡ over_budget_in ledger.now.units ledger.now.records transport.now amounts.now counts.now }
{
    let currency = first_over(ledger, transport, amounts, counts)?;
    let left = u128::from(amounts.of(currency).0).saturating_sub(spending(
        ledger, transport, currency,
    ));
    Some(Deny::OverBudget {
        currency,
        left: Milli(left as u64),
    })
}

// The first currency, in the order of letters, in which the counts exceed the amounts.
fn first_over<D: Disk>(
    ledger: &Ledger<D>,
    transport: &Counts,
    amounts: &Amounts,
    counts: &Counts,
) -> Option<Currency>
    requires tells { TellsPresented ledger.now }
    ensures { result ≡ first_currency (is_over ledger.now.units ledger.now.records transport.now amounts.now counts.now) ledger.now.units }
{
    let kinds = ledger.units().kinds();
    let mut first = None;
    for i in 0..kinds.len() {
        let currency = kinds[kinds.len() - 1 - i].currency;
        let worth = spending(ledger, transport, currency) + counts.value(ledger.units(), currency);
        if u128::from(amounts.of(currency).0) < worth {
            first = Some(before(currency, first));
        }
    }
    first
}

// What was presented since the live issue, and what lies on the transport.
fn spending<D: Disk>(ledger: &Ledger<D>, transport: &Counts, currency: Currency) -> u128
    requires tells { TellsPresented ledger.now }
    ensures worth { result ≡ spent ledger.now.units ledger.now.records transport.now currency }
    ensures small { result < 2 ^ 66 }
{
    u128::from(ledger.worth_presented(currency)) + transport.value(ledger.units(), currency)
}

// Of two currencies the first in the order of letters.
fn before(currency: Currency, other: Option<Currency>) -> Currency
    ensures { result ≡ earlier currency other }
{
    match other {
        Some(other) if other.letters().cmp(&currency.letters()).is_lt() => other,
        _ => currency,
    }
}
