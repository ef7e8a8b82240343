//! A token of pairs that are written already, with its HMAC.

ghost use Rattle.std.specs.Prelude.{◌≡◌, ◌≤◌, ◌++◌, ℕ, List, IfOk, IsTrue, OnOk, codes, length};
ghost use Rattle.hex.specs.Hex.{encode_upper};
ghost use Rattle.xfs_token.specs.Token as grammar;
ghost use Rattle.xfs_token.specs.Token.{IsMac, Parts, four_digits, is_nonce, pairs_text};
ghost use Rattle.xfs_evidence.specs.Evidence.{IsSigned, IsWrittenAs};

use std::alloc::{AllocError, Global};
use xfs_hmac::upper;
use xfs_token::TokenKey;

// How many bytes a token has beside its nonce and its pairs.
const FRAME: usize = 113;

/// The text of a token with this nonce and these pairs, and the HMAC of its own bytes.
pub fn sign(
    alloc: Global,
    key: &TokenKey,
    nonce: &[u8],
    pairs: &[u8],
) -> Result<Vec<u8>, AllocError>
    requires nonce { IsTrue (is_nonce nonce.now) }
    requires short { length pairs.now ≤ 256 }
    ensures { (t : Parts) → IsWrittenAs t nonce.now pairs.now → IfOk result (λ text. IsSigned key.now t text.items) }
{
    let total = nonce.len() + pairs.len() + FRAME;
    let mut text = covered_part(alloc, nonce, pairs, total as u16)?;
    let code = key.mac(&text);
    push_mac(&mut text, &code)?;
    Ok(text)
}

// The bytes that the HMAC covers. Room for the rest is taken with them.
fn covered_part(
    alloc: Global,
    nonce: &[u8],
    pairs: &[u8],
    total: u16,
) -> Result<Vec<u8>, AllocError>
    ensures { (ps : List (List ℕ × List ℕ)) → pairs.now ≡ pairs_text ps → IfOk result (λ v. v.items ≡ grammar.covered nonce.now ps total) }
{
    let mut text = Vec::with_capacity(alloc, usize::from(total))?;
    text.extend_from_slice(b"NONCE=")?;
    text.extend_from_slice(nonce)?;
    text.extend_from_slice(b",TOKENFORMAT=1,TOKENLENGTH=")?;
    text.extend_from_slice(&digits(total))?;
    text.extend_from_slice(pairs)?;
    Ok(text)
}

fn digits(n: u16) -> [u8; 4]
    ensures { result ≡ four_digits n }
{
    [
        48 + (n / 1000 % 10) as u8,
        48 + (n / 100 % 10) as u8,
        48 + (n / 10 % 10) as u8,
        48 + (n % 10) as u8,
    ]
}

// The HMAC at the end of a token.
fn push_mac(text: &mut Vec<u8>, code: &[u8; 32]) -> Result<(), AllocError>
    ensures items { OnOk result (text.new.items ≡ text.old.items ++ codes ",HMACSHA256=" ++ encode_upper code.now) }
    ensures mac { IsMac code.now }
{
    text.extend_from_slice(b",HMACSHA256=")?;
    text.extend_from_slice(&upper(code))?;
    Ok(())
}
