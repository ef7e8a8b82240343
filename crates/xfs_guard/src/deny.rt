ghost use Rattle.std.specs.Prelude.{◌≡◌};

use xfs_base::{Currency, Memory, Milli};
use xfs_token::TokenFault;

/// Why the guard refuses. `since` is the number of the last Issue, Clear, Expire or boot record; in
/// `OtherBound` it is that of the Bind.
#[derive(Clone, Copy, Debug, PartialEq, Eq)]
pub enum Deny {
    /// The disk failed in an earlier call, and the journal wasn't read again since.
    Shut,
    /// Fewer than `LEAST_RECORDS` or `LEAST_BYTES` are left of the journal's limits, or a restore found no room
    /// for its boot record.
    Full,
    /// The token has more than 1,024 bytes.
    TooLong,
    /// A key of the token has no value; `at` counts bytes from 0.
    KeyNoValue { at: u32 },
    /// The token isn't of the grammar from `at` on.
    Format { at: u32 },
    /// No nonce is live.
    NoNonce { since: u64 },
    /// The token carries another nonce than the live one, or a stack names another issue.
    WrongNonce { since: u64 },
    /// The token's HMAC isn't that of its bytes under the key, which is `due`.
    WrongMac { due: [u8; 32] },
    /// The token has no dispense amounts.
    NoAmounts,
    /// Another token serves the live nonce already.
    OtherBound { since: u64 },
    /// Notes lie on the transport, and no token is bound that would cover them.
    NotEmpty { notes: u64 },
    /// The token's amount of this currency is exceeded; `left` is what it has before the counts.
    OverBudget { currency: Currency, left: Milli },
    /// No token is bound to the live nonce.
    Unbound { since: u64 },
    /// There are no notes to move.
    Nothing,
    /// Notes lie in the outlet.
    OutletFull { notes: u64 },
    /// The unit, which counts from 1, holds fewer notes.
    Short { unit: u8 },
    /// The disk failed in this call: its count of faults rose. The journal is shut.
    Disk,
    Memory,
}

impl From<Memory> for Deny {
    ghost use Rattle.xfs_guard.specs.declared.deny.Deny.TheVariants.{Memory as DenyMemory};

    ghost from_gives = { λ _ e. e ≡ DenyMemory };

    fn from(_: Memory) -> Self {
        Deny::Memory
    }
}

impl From<TokenFault> for Deny {
    ghost use Rattle.xfs_guard.specs.TokenDeny.{deny_of};

    ghost from_gives = { λ fault e. e ≡ deny_of fault };

    fn from(fault: TokenFault) -> Self {
        match fault {
            TokenFault::TooLong => Deny::TooLong,
            TokenFault::KeyNoValue { at } => Deny::KeyNoValue { at },
            TokenFault::Format { at } => Deny::Format { at },
            TokenFault::Memory => Deny::Memory,
        }
    }
}
