//! What the Done records of a journal say was presented.

ghost use Rattle.std.specs.Prelude.{◌≡◌, ◌≤◌, ◌+◌, ◌^◌, codes};
ghost use Rattle.xfs_load.specs.Summaries.{presented_after, presented_euros};

use xfs_base::{Currency, Kind, UnitTable};
use xfs_journal::Rec;

/// Whether the last record is an order to present, and what was presented in EUR, in thousandths.
#[derive(Clone, Copy, Debug)]
pub struct Presented {
    pub ordered: bool,
    pub worth: u128,
}

/// What the Done records behind orders to present say was put out in EUR, in thousandths.
pub(crate) fn presented_euros(units: &UnitTable, records: &[Rec]) -> u128
    ensures { result ≡ presented_euros units.now records.now }
{
    let mut presented = Presented {
        ordered: false,
        worth: 0,
    };
    for entry in records {
        presented = presented_after(units, presented, entry);
    }
    presented.worth
}

fn presented_after(units: &UnitTable, before: Presented, entry: &Rec) -> Presented
    requires { before.worth + 2 ^ 65 ≤ 2 ^ 128 }
    ensures after { result ≡ presented_after units.now before entry.now }
    ensures small { result.worth ≤ before.worth + 2 ^ 65 }
{
    let ordered = matches!(
        entry,
        Rec::Order {
            kind: Kind::Present,
            ..
        }
    );
    let worth = match entry {
        Rec::Done { moved, .. } if before.ordered => before.worth + moved.value(units, euro()),
        _ => before.worth,
    };
    Presented { ordered, worth }
}

// The currency of the amounts.
pub(crate) fn euro() -> Currency
    ensures { result ≡ codes "EUR" }
{
    match Currency::new(b"EUR") {
        Some(currency) => currency,
        None => unreachable!(),
    }
}
