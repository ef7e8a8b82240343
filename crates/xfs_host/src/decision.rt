//! What the host decides of an ask.

/// What is decided of an ask. It stays the same for good, so a repeat is told the same.
#[derive(Clone, Copy)]
pub(crate) enum Decision {
    /// It gets a token.
    Paid,
    /// It says something else than the first one with its number.
    Other,
    /// Its account is not open.
    Unknown,
    /// Its currency is not that of the account.
    WrongCurrency,
    /// An earlier transaction got a token for its nonce.
    UsedNonce { tx: u64 },
    /// The account has less.
    Poor { balance: u64 },
}

impl Decision {
    ghost use Rattle.std.specs.Prelude.{◌≡◌};
    ghost use Rattle.xfs_host.specs.Book as book;

    pub(crate) fn is_paid(self) -> bool
        ensures { result ≡ book.is_paid self }
    {
        match self {
            Decision::Paid => true,
            _ => false,
        }
    }
}
