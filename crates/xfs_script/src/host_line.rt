ghost use Rattle.std.specs.Prelude.{◌≡◌, IfOk, Err};
ghost use Rattle.xfs_script.specs.HostLines.{IsHostLine};
ghost use Rattle.xfs_script.specs.declared.guard_line.ScriptFault.TheVariants as ScriptFault;
ghost use Rattle.xfs_script.specs.declared.host_line.HostLine.{HostLine};

use crate::guard_line::ScriptFault;
use crate::host_fields::{read_account, read_ask};
use crate::token_line::bytes_of;
use crate::word::{is_skipped, is_word};
use std::alloc::Global;
use xfs_base::{Bytes, Currency, Milli};

/// A line of the command `host`: its verb with its fields.
#[derive(Drop)]
pub enum HostLine {
    /// An empty line or a comment. It has no answer.
    Skip,
    /// The line `open`: an account is opened with a balance.
    Account {
        account: u64,
        currency: Currency,
        balance: Milli,
    },
    /// A transaction asks for a token for a nonce and an amount.
    Ask {
        tx: u64,
        account: u64,
        nonce: Bytes,
        currency: Currency,
        amount: Milli,
    },
    Show,
}

/// Reads a line of `host`, given without its end. The allocator is for the bytes that a line holds.
pub fn read_host(alloc: Global, text: &[u8]) -> Result<HostLine, ScriptFault>
    ensures ok { IfOk result (IsHostLine text.now) }
    ensures not_a_line { result ≡ Err ScriptFault.NotALine → (line : HostLine) → ¬ IsHostLine text.now line }
{
    if is_skipped(text) {
        return Ok(HostLine::Skip);
    }
    if is_word(text, b"show") {
        return Ok(HostLine::Show);
    }
    if let Some((account, currency, balance)) = read_account(text) {
        return Ok(HostLine::Account {
            account,
            currency,
            balance,
        });
    }
    let Some((tx, account, nonce, currency, amount)) = read_ask(text) else {
        return Err(ScriptFault::NotALine);
    };
    Ok(HostLine::Ask {
        tx,
        account,
        nonce: bytes_of(alloc, nonce)?,
        currency,
        amount,
    })
}
