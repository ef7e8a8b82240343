//! What an evidence tells.
use xfs_token::Amounts;

/// What an evidence tells: the number of a nonce's Issue, and what was presented for that nonce in each currency of which
/// something was. Where nothing was presented there are no amounts.
#[derive(Debug, Drop)]
pub struct Shown {
    pub issue: u64,
    pub amounts: Option<Amounts>,
}
