use crate::work::Work;
use std::alloc::Global;
use xfs_base::{Currency, Milli};
use xfs_token::{Amounts, amounts, genuine, make, read};

const KEY: [u8; 32] = [0x0b; 32];

const NONCE: &[u8] = b"254611E63B2531576314E86527338D61";

const AMOUNT: Milli = Milli(50_000);

/// A token of 164 bytes is read, and its amount and its HMAC are checked.
#[derive(Drop)]
pub(crate) struct TokenCheck {
    text: Vec<u8>,
    currency: Currency,
}

impl TokenCheck {
    pub(crate) fn new(alloc: Global) -> Option<TokenCheck> {
        let currency = Currency::new(b"EUR")?;
        let amounts = Amounts::one(currency, AMOUNT)?;
        let text = make(alloc, &KEY, NONCE, &amounts).ok()?;
        Some(TokenCheck { text, currency })
    }
}

impl Work for TokenCheck {
    fn is_right(&self, alloc: Global) -> bool {
        let Ok(token) = read(alloc, &self.text) else {
            return false;
        };
        let Some(amounts) = amounts(&token) else {
            return false;
        };
        amounts.of(self.currency) == AMOUNT && genuine(&KEY, &self.text, &token)
    }
}
