ghost use Rattle.std.specs.Prelude.{List, ℕ, IfSome, IfNone};
ghost use Rattle.xfs_script.specs.HostLines.{IsAccount, IsAsk, IsNumber};

use crate::number::read_number;
use crate::token_line::is_nonce;
use crate::word::{four_fields, is_word, three_fields};
use xfs_base::{Currency, Milli};
use xfs_token::read_amount;

/// The greatest number of an account and of a transaction.
const GREATEST: u64 = 18_446_744_073_709_551_615;

// The account, the currency and the balance of an `open` line.
pub(crate) fn read_account(text: &[u8]) -> Option<(u64, Currency, Milli)>
    ensures found { IfSome result (λ a. IsAccount text.now a.0 a.1 a.2.0) }
    ensures none { IfNone result ((account : ℕ) (currency : List ℕ) (balance : ℕ) → ¬ IsAccount text.now account currency balance) }
{
    let (verb, digits, field) = three_fields(text)?;
    if !is_word(verb, b"open") {
        return None;
    }
    let account = read_any(digits)?;
    let (currency, balance) = read_amount(field)?;
    Some((account, currency, balance))
}

// The transaction, the account, the nonce, the currency and the amount of an `ask` line.
pub(crate) fn read_ask(text: &[u8]) -> Option<(u64, u64, &[u8], Currency, Milli)>
    ensures found { IfSome result (λ a. IsAsk text.now a.0 a.1 a.2.now a.3 a.4.0) }
    ensures none { IfNone result ((tx account : ℕ) (nonce currency : List ℕ) (amount : ℕ) → ¬ IsAsk text.now tx account nonce currency amount) }
{
    let (first, second, nonce, field) = four_fields(text, b"ask")?;
    let tx = read_any(first)?;
    let account = read_any(second)?;
    if !is_nonce(nonce) {
        return None;
    }
    let (currency, amount) = read_amount(field)?;
    Some((tx, account, nonce, currency, amount))
}

// A number without leading zeros.
pub(crate) fn read_any(field: &[u8]) -> Option<u64>
    ensures found { IfSome result (IsNumber field.now) }
    ensures none { IfNone result ((n : ℕ) → ¬ IsNumber field.now n) }
{
    read_number(field, GREATEST)
}
