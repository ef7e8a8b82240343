ghost use Rattle.std.specs.Prelude.{◌≡◌};

use std::alloc::AllocError;

/// Why a text is no token. Places count bytes from 0.
#[derive(Clone, Copy, Debug, PartialEq, Eq)]
pub enum TokenFault {
    /// It has more than 1,024 bytes.
    TooLong,
    /// A key's equals sign stands before `at`, and the text ends there or goes on with a comma.
    KeyNoValue { at: u32 },
    /// No token goes on from the text's first `at` bytes; or all is well but the four digits of
    /// the length, which begin at `at`.
    Format { at: u32 },
    Memory,
}

impl From<AllocError> for TokenFault {
    ghost use Rattle.xfs_token.specs.declared.faults.TokenFault.TheVariants.{Memory};

    ghost from_gives = { λ _ e. e ≡ Memory };

    fn from(_: AllocError) -> Self {
        TokenFault::Memory
    }
}

/// Why the reading of a part of a text ended.
#[derive(Clone, Copy)]
pub(crate) enum Stop {
    /// No token goes on as the text does from here, with so many bytes left.
    Left(usize),
    Memory,
}

impl From<AllocError> for Stop {
    ghost use Rattle.xfs_token.specs.declared.faults.Stop.TheVariants.{Memory};

    ghost from_gives = { λ _ e. e ≡ Memory };

    fn from(_: AllocError) -> Self {
        Stop::Memory
    }
}
