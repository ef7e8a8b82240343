use crate::Nonce;
use xfs_token::Amounts;

/// The live issue: the number of its record, and its nonce.
#[derive(Clone, Copy)]
pub struct Live {
    pub number: u64,
    pub nonce: Nonce,
}

/// The token that is bound to the live nonce: the number of its Bind record, its amounts, and for
/// each of their currencies what was presented since, in thousandths.
#[derive(Drop)]
pub struct Bound {
    pub number: u64,
    pub amounts: Amounts,
    pub presented: [u64; 9],
}
