//! What the host answers.
use crate::Text;
use xfs_base::Milli;

/// What an ask is answered.
#[derive(Drop)]
pub enum Reply {
    /// A genuine token for the nonce and the amount. The account is debited once.
    Token(Text),
    /// The transaction's number was used for something else.
    Other,
    /// The account is not open.
    Unknown,
    /// The account is in another currency.
    WrongCurrency,
    /// This earlier transaction got a token for the nonce.
    UsedNonce { tx: u64 },
    /// The account has this, which is less.
    Poor { balance: Milli },
}
