ghost use Rattle.std.specs.Prelude.{◌≡◌, ◌+◌, ◌<◌, ◌≤◌, ◌++◌, ◌∷◌, [], ℕ, List, codes, Err, IfOk, IfErr, OnOk, length, take, false};
ghost use Rattle.xfs_token.specs.Token as grammar;
ghost use Rattle.xfs_token.specs.Token.{pairs_text};
ghost use Rattle.xfs_token.specs.Amounts.{IsAmounts, IsMade, decimals, amount_text, dispense_key, dispense_pairs};
ghost use Rattle.xfs_token.specs.declared.minting.MakeFault.TheVariants.{BadNonce};

use crate::{Amounts, TokenKey};
use itoa::Buffer;
use std::alloc::{AllocError, Global};
use xfs_base::{Currency, Milli};

/// Why no token was made.
#[derive(Clone, Copy, Debug, PartialEq, Eq)]
pub enum MakeFault {
    /// The nonce is not 1 to 128 upper-case hexadecimal digits.
    BadNonce,
    Memory,
}

impl From<AllocError> for MakeFault {
    ghost use Rattle.xfs_token.specs.declared.minting.MakeFault.TheVariants.{Memory};

    ghost from_gives = { λ _ e. e ≡ Memory };

    fn from(_: AllocError) -> Self {
        MakeFault::Memory
    }
}

/// A genuine token with the nonce and the amounts, under the keys DISPENSE1 onwards in their
/// order. An amount is written with two decimals, or with three where its last thousandth is not 0.
pub fn make(
    alloc: Global,
    key: &[u8; 32],
    nonce: &[u8],
    amounts: &Amounts,
) -> Result<Vec<u8>, MakeFault>
    ensures ok { IfOk result (λ v. IsMade key.now nonce.now amounts.now v.items) }
    ensures bad_nonce { grammar.is_nonce nonce.now ≡ false → result ≡ Err BadNonce }
    ensures cause { IfErr result (λ e. e ≡ BadNonce → grammar.is_nonce nonce.now ≡ false) }
{
    TokenKey::new(*key).make(alloc, nonce, amounts)
}

// The pairs of the amounts, under the keys DISPENSE1 onwards.
pub(crate) fn dispense_text(alloc: Global, amounts: &Amounts) -> Result<Vec<u8>, AllocError>
    ensures text { IfOk result (λ v. v.items ≡ pairs_text (dispense_pairs 1 amounts.now)) }
    ensures valid { IsAmounts amounts.now }
{
    let mut text = Vec::new(alloc);
    'amounts: for i in 0..amounts.len() {
        let (currency, amount) = amounts.at(i);
        push_pair(&mut text, i + 1, currency, amount)?;
    }
    Ok(text)
}

fn push_pair(
    text: &mut Vec<u8>,
    number: u8,
    currency: Currency,
    amount: Milli,
) -> Result<(), AllocError>
    requires { number ≤ 9 }
    ensures { OnOk result (text.new.items ≡ text.old.items ++ (codes "," ++ dispense_key number ++ codes "=" ++ amount_text currency amount.0)) }
{
    text.extend_from_slice(b",DISPENSE")?;
    text.extend_from_slice(&[48 + number, b'='])?;
    text.extend_from_slice(Buffer::new().format(amount.0 / 1000).as_bytes())?;
    let (digits, len) = decimals_of(amount.0);
    text.extend_from_slice(&digits[..len])?;
    text.extend_from_slice(&currency.letters())?;
    Ok(())
}

fn decimals_of(n: u64) -> ([u8; 4], usize)
    ensures few { result.1 ≤ 4 }
    ensures digits { take result.1 result.0 ≡ decimals n }
{
    let digits = [
        b'.',
        48 + (n / 100 % 10) as u8,
        48 + (n / 10 % 10) as u8,
        48 + (n % 10) as u8,
    ];
    (digits, if n % 10 == 0 { 3 } else { 4 })
}
