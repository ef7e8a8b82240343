//! Texts of the answers of `host`.

ghost use Rattle.std.specs.Prelude.{◌≡◌, ◌++◌, ◌∷◌, [], decimal, IfOk, OnOk, Some};
ghost use Rattle.xfs_script.specs.Answered.{lines_text};
ghost use Rattle.xfs_lines.specs.Host.Verbs.{account_line, reply_text, show_lines};

use crate::output::text::join_parts;
use itoa::Buffer;
use std::alloc::{AllocError, Global};
use xfs_base::Memory;
use xfs_host::{Account, Host, Reply};

pub fn reply_text(alloc: Global, reply: &Reply) -> Result<Vec<u8>, Memory>
    ensures { IfOk result (λ text. text.items ≡ reply_text reply.now) }
{
    match reply {
        Reply::Token(text) => join_parts(alloc, b"token ", text.list()),
        Reply::Other => Ok(Vec::from_slice(alloc, b"refused other")?),
        Reply::Unknown => Ok(Vec::from_slice(alloc, b"refused account")?),
        Reply::WrongCurrency => Ok(Vec::from_slice(alloc, b"refused currency")?),
        Reply::UsedNonce { tx } => Ok(with_number(alloc, b"refused nonce used ", *tx)?),
        Reply::Poor { balance } => Ok(with_number(alloc, b"refused balance ", balance.0)?),
    }
}

fn with_number(alloc: Global, words: &[u8], number: u64) -> Result<Vec<u8>, AllocError>
    ensures { IfOk result (λ text. text.items ≡ words.now ++ decimal number) }
{
    let mut text = Vec::from_slice(alloc, words)?;
    text.extend_from_slice(Buffer::new().format(number).as_bytes())?;
    Ok(text)
}

/// A line for each open account, with its line feed.
pub fn show_text(alloc: Global, host: &Host) -> Result<Vec<u8>, Memory>
    ensures { IfOk result (λ text. text.items ≡ lines_text (show_lines host.now)) }
{
    let accounts = host.accounts()?;
    let mut text = Vec::new(alloc);
    for i in 0..accounts.len() {
        let (number, account) = accounts[i];
        push_account(&mut text, number, account)?;
    }
    Ok(text)
}

// Adds the line of an account, and its line feed.
fn push_account(text: &mut Vec<u8>, number: u64, account: Account) -> Result<(), AllocError>
    ensures { OnOk result (text.new.items ≡ text.old.items ++ account_line number (Some account) ++ 10 ∷ []) }
{
    text.extend_from_slice(Buffer::new().format(number).as_bytes())?;
    text.push(b' ')?;
    text.extend_from_slice(Buffer::new().format(account.balance).as_bytes())?;
    text.push(b' ')?;
    text.extend_from_slice(&account.currency.letters())?;
    text.push(b'\n')?;
    Ok(())
}
