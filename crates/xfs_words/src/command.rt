//! What the words of the command line may say.

use std::alloc::AllocError;
use thiserror::Error;
use xfs_base::Currency;

/// A command of the program, with the numbers and the currency that its words give.
#[derive(Clone, Copy, Debug, PartialEq, Eq)]
pub enum Command {
    /// `guard`: answers lines of nonces, tokens and orders.
    Guard,
    /// `token`: answers lines that read, make and check tokens.
    Token,
    /// `replay`: answers lines of clients and devices from the whole machine.
    Replay,
    /// `load N`: plays N rounds of withdrawals, from 1 to 10,000.
    Load(u64),
    /// `serve N`: takes N connections, from 1 to 1,000,000.
    Serve(u64),
    /// `client CUR AMOUNT`: withdraws an amount of whole units of a currency, from 1 to 1,000,000.
    Client(Currency, u64),
    /// `host`: answers lines of accounts, and of what is asked of them for the machine's nonces.
    Host,
    /// `audit`: reads lines of a journal and of a mechanism's list, and answers at their end which rule they break.
    Audit,
    /// `fleet`: answers lines of two machines, each of its own, by the letter in front.
    Fleet,
}

/// Why words give no command.
#[derive(Clone, Copy, Debug, PartialEq, Eq, Error)]
pub enum WordsFault {
    /// They are not of the table of commands.
    #[error("the words name no command")]
    Usage,
    /// Want of memory.
    #[error("want of memory")]
    Memory,
}

impl From<AllocError> for WordsFault {
    ghost use Rattle.std.specs.Prelude.{◌≡◌};
    ghost use Rattle.xfs_words.specs.declared.command.WordsFault.TheVariants.{Memory};

    ghost from_gives = { λ _ fault. fault ≡ Memory };

    fn from(_: AllocError) -> WordsFault {
        WordsFault::Memory
    }
}
