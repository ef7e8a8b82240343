//! The three changes that are made to the maps of a ledger.
ghost use Rattle.std.specs.Prelude.{◌≡◌, ◌+◌, ◌≤◌, ◌==◌, ℕ, List, if◌then◌else◌, bytes_eq, IsSomeAnd, Some, None, OnOk, OnErr};
ghost use Rattle.std.specs.Ordering.{nat_cmp};
ghost use Rattle.std.specs.BTreeMap.{get, insert_entry, keys, btree_map_len};
ghost use Rattle.xfs_host.specs.Kept.{charged, tx_at};

use crate::account::Account;
use std::alloc::AllocError;
use std::collections::BTreeMap;

// Puts a value at a new number, or leaves the map as it is.
pub(crate) fn add<V: Drop>(
    map: &mut BTreeMap<u64, V>,
    number: u64,
    value: V,
) -> Result<(), AllocError>
    requires { get nat_cmp map.old number ≡ None }
    ensures updates { OnOk result ((q : ℕ) → get nat_cmp map.new q ≡ (if number == q then Some value else get nat_cmp map.old q)) }
    ensures entries { OnOk result (map.new.entries ≡ insert_entry nat_cmp map.old.entries number value) }
    ensures len { OnOk result (btree_map_len map.new ≡ btree_map_len map.old + 1) }
    ensures err { OnErr result (map.new.entries ≡ map.old.entries) }
{
    map.insert(number, value)?;
    Ok(())
}

// Takes an amount from the balance of an open account.
pub(crate) fn charge(accounts: &mut BTreeMap<u64, Account>, account: u64, amount: u64)
    requires { IsSomeAnd (get nat_cmp accounts.old account) (λ a. amount ≤ a.balance) }
    ensures charged { (q : ℕ) → get nat_cmp accounts.new q ≡ charged account amount q (get nat_cmp accounts.old q) }
    ensures keys { keys accounts.new ≡ keys accounts.old }
    ensures len { btree_map_len accounts.new ≡ btree_map_len accounts.old }
{
    let now = *accounts.get(&account).unwrap();
    let left = Account {
        currency: now.currency,
        balance: now.balance - amount,
    };
    if accounts.insert(account, left).is_err() {
        unreachable!();
    }
}

// Notes who used a nonce, or leaves the map as it is.
pub(crate) fn use_nonce(
    nonces: &mut BTreeMap<Vec<u8>, u64>,
    nonce: Vec<u8>,
    tx: u64,
) -> Result<(), AllocError>
    ensures used { OnOk result ((n : List ℕ) → tx_at nonces.new n ≡ (if bytes_eq nonce.items n then Some tx else tx_at nonces.old n)) }
    ensures err { OnErr result (nonces.new.entries ≡ nonces.old.entries) }
{
    nonces.insert(nonce, tx)?;
    Ok(())
}

// Takes that back.
pub(crate) fn free_nonce(nonces: &mut BTreeMap<Vec<u8>, u64>, nonce: &[u8])
    ensures { (n : List ℕ) → tx_at nonces.new n ≡ (if bytes_eq nonce.now n then None else tx_at nonces.old n) }
{
    nonces.remove(nonce);
}
