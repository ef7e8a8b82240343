//! The currencies of the units, in the order of their bytes.

ghost use Rattle.std.specs.Prelude.{◌≡◌};
ghost use Rattle.xfs_evidence.specs.Sums as sums;
ghost use Rattle.xfs_evidence.specs.Sums.{IsNextCurrency};
ghost use Rattle.xfs_evidence.specs.Told as told;

use xfs_base::{Currency, UnitTable};

/// Of the currencies of the units that come behind one, the first.
pub fn next_currency(units: &UnitTable, after: &Option<Currency>) -> Option<Currency>
    ensures { IsNextCurrency units.now after.now result }
{
    let kinds = units.kinds();
    let mut first = None;
    for i in 0..kinds.len() {
        first = nearer(first, after, kinds[i].currency);
    }
    first
}

// A currency, where it comes behind one and before the first so far.
fn nearer(first: Option<Currency>, after: &Option<Currency>, currency: Currency) -> Option<Currency>
    ensures { result ≡ sums.nearer after.now first currency }
{
    if !is_behind(after, currency) {
        return first;
    }
    match first {
        Some(first) => Some(earlier(first, currency)),
        None => Some(currency),
    }
}

fn earlier(first: Currency, currency: Currency) -> Currency
    ensures { result ≡ sums.earlier first currency }
{
    if is_before(currency, first) {
        currency
    } else {
        first
    }
}

// Whether a currency comes behind another; each comes behind none.
fn is_behind(after: &Option<Currency>, currency: Currency) -> bool
    ensures { result ≡ sums.is_behind after.now currency }
{
    match after {
        Some(after) => is_before(*after, currency),
        None => true,
    }
}

/// Whether a currency comes before another in the order of bytes.
pub fn is_before(one: Currency, other: Currency) -> bool
    ensures { result ≡ told.is_before one other }
{
    one.letters().cmp(&other.letters()).is_lt()
}
