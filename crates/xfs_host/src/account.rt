//! An open account.
use xfs_base::Currency;

/// An account's currency, and its balance in thousandths of the currency's unit.
#[derive(Clone, Copy)]
pub struct Account {
    pub currency: Currency,
    pub balance: u64,
}
