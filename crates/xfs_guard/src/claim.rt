use std::marker::Model;
use xfs_journal::Text;
use xfs_token::Amounts;

/// A token that passed every check, with its amounts. It is spent by `allow`.
#[derive(Drop)]
pub struct Claim {
    pub(crate) token: Text,
    pub(crate) amounts: Amounts,
}

impl Model for Claim {
    ghost use Rattle.xfs_guard.specs.Claims.{ClaimView};

    ghost Value = { ClaimView };

    ghost view = { λ c. record { token = c.token; amounts = c.amounts } };
}

/// The leave to stack notes for the nonce of this issue number.
#[derive(Clone, Copy)]
pub struct Permit {
    pub issue: u64,
}
