//! A Dispense of an amount that no message gives.

use crate::crash_calls::{booted, fresh};
use std::alloc::Global;
use std::test::Fail;
use xfs_base::Currency;
use xfs_dispenser::{Begun, CashAsk, Notes, begin};
use xfs_envelope::Code;

// Whether a Dispense of so many euros is told to be of another form, in an exchange.
fn is_refused(alloc: Global, amount: u32) -> Result<bool, Fail> {
    let currency = Currency::new(b"EUR").ok_or("EUR")?;
    let ask = CashAsk::Dispense {
        notes: Notes::Least { currency, amount },
        token: None,
    };
    let mut guard = booted(alloc, fresh(alloc)?)?;
    let begun = begin(alloc, &mut guard, &mut true, &ask);
    drop(guard);
    Ok(matches!(begun?, Begun::Result(Code::InvalidData, _)))
}

#[test]
fn an_amount_outside_of_its_bounds_is_told_before_the_exchange(
    rt: HostRuntime,
) -> Result<(), Fail> {
    for amount in [0, 1_000_001] {
        assert!(rt; is_refused(rt.alloc(), amount)?, "{amount}");
    }
    Ok(())
}
