//! The token of an evidence.

ghost use Rattle.std.specs.Prelude.{◌≡◌, ◌+◌, ◌/◌, ◌%◌, ◌^◌, ◌<◌, ◌≤◌, ◌∷◌, ◌++◌, [], true, IfOk, IsTrue, OnOk, codes, length, map, unwrap_or};
ghost use Rattle.std.specs.List.{list_all};
ghost use Rattle.xfs_token.specs.Token.{is_nonce, may_follow, pairs_text};
ghost use Rattle.xfs_token.specs.Amounts.{IsAmounts, is_payable};
ghost use Rattle.xfs_evidence.specs.Evidence.{IsTold, unless_none};
ghost use Rattle.xfs_evidence.specs.Told as told;
ghost use Rattle.xfs_evidence.specs.Told.{AreTold, presented_key, presented_pairs, told_pairs, told_text};

use crate::Shown;
use crate::signing::sign;
use itoa::Buffer;
use std::alloc::{AllocError, Global};
use xfs_base::{Currency, Memory, Milli};
use xfs_token::{Amounts, TokenKey};

/// The token that tells this, with this nonce.
pub fn spell(alloc: Global, key: &TokenKey, nonce: &[u8], shown: &Shown) -> Result<Vec<u8>, Memory>
    requires nonce { IsTrue (is_nonce nonce.now) }
    requires issue { 1 ≤ shown.now.issue }
    requires amounts { AreTold (unwrap_or shown.now.amounts []) }
    ensures { IfOk result (λ text. IsTold key.now nonce.now text.items shown.now) }
{
    let pairs = pairs_of(alloc, shown)?;
    let text = sign(alloc, key, nonce, &pairs)?;
    Ok(text)
}

// Each pair behind a comma: the Issue's number, and the amounts.
fn pairs_of(alloc: Global, shown: &Shown) -> Result<Vec<u8>, AllocError>
    requires few { length (unwrap_or shown.now.amounts []) ≤ 8 }
    ensures text { IfOk result (λ v. v.items ≡ pairs_text (told_pairs shown.now.issue (unwrap_or shown.now.amounts []))) }
    ensures short { IfOk result (λ v. length v.items ≤ 256) }
    ensures follow { OnOk result (IsTrue (may_follow [] (told_pairs shown.now.issue (unwrap_or shown.now.amounts [])))) }
    ensures listed { OnOk result (shown.now.amounts ≡ unless_none (unwrap_or shown.now.amounts [])) }
    ensures small { OnOk result (shown.now.issue < 2 ^ 64) }
{
    let mut text = Vec::with_capacity(alloc, 256)?;
    text.extend_from_slice(b",ISSUE=")?;
    text.extend_from_slice(Buffer::new().format(shown.issue).as_bytes())?;
    push_all(&mut text, &shown.amounts)?;
    Ok(text)
}

// Each amount's pair, where there are some.
fn push_all(text: &mut Vec<u8>, amounts: &Option<Amounts>) -> Result<(), AllocError>
    requires few { length (unwrap_or amounts.now []) ≤ 8 }
    ensures text { OnOk result (text.new.items ≡ text.old.items ++ pairs_text (presented_pairs 1 (map told_text (unwrap_or amounts.now [])))) }
    ensures listed { amounts.now ≡ unless_none (unwrap_or amounts.now []) }
    ensures payable { list_all (λ a. is_payable a.0 a.1) (unwrap_or amounts.now []) ≡ true }
{
    match amounts {
        Some(amounts) => push_amounts(text, amounts),
        None => Ok(()),
    }
}

// Each amount under its key.
fn push_amounts(text: &mut Vec<u8>, amounts: &Amounts) -> Result<(), AllocError>
    requires few { length amounts.now ≤ 8 }
    ensures text { OnOk result (text.new.items ≡ text.old.items ++ pairs_text (presented_pairs 1 (map told_text amounts.now))) }
    ensures valid { IsAmounts amounts.now }
{
    'amounts: for i in 0..amounts.len() {
        let (currency, amount) = amounts.at(i);
        push_pair(text, i + 1, currency, amount)?;
    }
    Ok(())
}

fn push_pair(
    text: &mut Vec<u8>,
    number: u8,
    currency: Currency,
    amount: Milli,
) -> Result<(), AllocError>
    requires { number ≤ 9 }
    ensures { OnOk result (text.new.items ≡ text.old.items ++ (codes "," ++ presented_key number ++ codes "=" ++ told_text (currency, amount.0))) }
{
    text.extend_from_slice(b",PRESENTED")?;
    text.extend_from_slice(&[48 + number, b'='])?;
    text.extend_from_slice(Buffer::new().format(amount.0 / 1000).as_bytes())?;
    text.extend_from_slice(&decimals_of(amount.0))?;
    text.extend_from_slice(&currency.letters())?;
    Ok(())
}

// A point and two decimals of thousandths.
fn decimals_of(n: u64) -> [u8; 3]
    ensures { result ≡ 46 ∷ (48 + n / 100 % 10) ∷ (48 + n / 10 % 10) ∷ [] }
{
    [b'.', 48 + (n / 100 % 10) as u8, 48 + (n / 10 % 10) as u8]
}

// The key of a number.
pub fn key_of(number: u8) -> [u8; 10]
    requires { number ≤ 9 }
    ensures { result ≡ told.presented_key number }
{
    let mut key = *b"PRESENTED0";
    key[9] += number;
    key
}
