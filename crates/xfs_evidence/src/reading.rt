//! What the pairs of a token tell.

ghost use Rattle.std.specs.Prelude.{◌≡◌, ◌↔◌, ◌<◌, ◌≤◌, ◌^◌, ℕ, List, [], IfNone, IfSome, IsTrue, decimal, length, unwrap_or};
ghost use Rattle.std.specs.Option.{option_map};
ghost use Rattle.xfs_evidence.specs.Evidence.{IsToldBy};
ghost use Rattle.xfs_evidence.specs.Reading as reading;
ghost use Rattle.xfs_evidence.specs.Told as tells;
ghost use Rattle.xfs_evidence.specs.declared.shown.Shown.{Shown as Told};

use crate::Shown;
use crate::currencies::is_before;
use crate::text::key_of;
use itoa::Buffer;
use xfs_base::{Currency, Milli};
use xfs_token::{Amounts, Token, read_amount};

/// What a token's pairs tell. None exactly where they aren't those of an evidence.
pub fn told_by(token: &Token) -> Option<Shown>
    ensures found { IfSome result (λ shown. IsToldBy token.now.pairs shown) }
    ensures none { IfNone result ((shown : Told) → ¬ (IsToldBy token.now.pairs shown)) }
{
    if token.len() == 0 || token.key(0) != b"ISSUE".as_slice() {
        return None;
    }
    let issue = issue_in(token.value(0))?;
    let mut amounts = None;
    'pairs: for i in 1..token.len() {
        amounts = Some(told_onto(amounts, token.key(i), token.value(i))?);
    }
    Some(Shown { issue, amounts })
}

// The number of an Issue that a value writes: from 1 on, without a leading zero.
fn issue_in(text: &[u8]) -> Option<u64>
    ensures found { IfSome result (λ number. (1 ≤ number) × (text.now ≡ decimal number)) }
    ensures none { IfNone result ((number : ℕ) → 1 ≤ number → number < 2 ^ 64 → ¬ (text.now ≡ decimal number)) }
{
    let digits = match str::from_utf8(text) {
        Ok(digits) => digits,
        Err(_) => return None,
    };
    let number = match digits.parse::<u64>() {
        Ok(number) => number,
        Err(_) => return None,
    };
    if number == 0 {
        return None;
    }
    if is_written(number, text) {
        return Some(number);
    }
    None
}

fn is_written(number: u64, text: &[u8]) -> bool
    ensures { IsTrue result ↔ (text.now ≡ decimal number) }
{
    text == Buffer::new().format(number).as_bytes()
}

// The amount of one more pair behind those before it.
fn told_onto(earlier: Option<Amounts>, key: &[u8], value: &[u8]) -> Option<Amounts>
    requires few { length (unwrap_or earlier []) ≤ 8 }
    requires rising { IsTrue (tells.are_rising (unwrap_or earlier [])) }
    ensures { result ≡ reading.told_onto (unwrap_or earlier []) (key.now, value.now) }
{
    let number = match &earlier {
        Some(amounts) => amounts.len(),
        None => 0,
    };
    if number >= 8 || key != key_of(number + 1).as_slice() {
        return None;
    }
    let (currency, amount) = told_amount(value)?;
    with_amount(earlier, currency, amount)
}

// The amount of a value with two decimals; None where it is 0.
fn told_amount(text: &[u8]) -> Option<(Currency, Milli)>
    ensures amount { option_map (λ a. (a.0, a.1.0)) result ≡ tells.told_amount text.now }
    ensures small { IfSome result (λ a. a.1.0 ≤ 999999999999) }
{
    if text.len() < 6 || text[text.len() - 6] != b'.' {
        return None;
    }
    let (currency, amount) = read_amount(text)?;
    if amount.0 == 0 {
        return None;
    }
    Some((currency, amount))
}

// One more amount, where its currency comes behind the last one's.
fn with_amount(earlier: Option<Amounts>, currency: Currency, amount: Milli) -> Option<Amounts>
    requires few { length (unwrap_or earlier []) < 8 }
    requires rising { IsTrue (tells.are_rising (unwrap_or earlier [])) }
    requires small { amount.0 ≤ 999999999999 }
    ensures { result ≡ reading.with_amount (unwrap_or earlier []) (currency, amount.0) }
{
    let _letters = currency.letters();
    let Some(mut amounts) = earlier else {
        return Amounts::one(currency, amount);
    };
    let (last, _) = amounts.at(amounts.len() - 1);
    if !is_before(last, currency) {
        return None;
    }
    if !amounts.add(currency, amount) {
        unreachable!();
    }
    Some(amounts)
}
