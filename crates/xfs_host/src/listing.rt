//! The accounts in their order.
ghost use Rattle.std.specs.Prelude.{◌≡◌, IfOk, OnOk};
ghost use Rattle.std.specs.Ordering.{nat_cmp};
ghost use Rattle.std.specs.BTreeMap.{IsOrdered};

use crate::account::Account;
use std::alloc::{AllocError, Global};
use std::collections::BTreeMap;

// The accounts with their numbers, by rising numbers. One walk reads them all.
pub(crate) fn pairs(
    alloc: Global,
    accounts: &BTreeMap<u64, Account>,
) -> Result<Vec<(u64, Account)>, AllocError>
    ensures entries { IfOk result (λ list. list.items ≡ accounts.now.entries) }
    ensures ordered { OnOk result (IsOrdered nat_cmp accounts.now) }
{
    let mut list = Vec::with_capacity(alloc, accounts.len())?;
    for (number, account) in accounts {
        list.push((*number, *account))?;
    }
    Ok(list)
}
