ghost use Rattle.std.specs.Prelude.{◌≡◌, ◌++◌, ℕ, List, IfOk, OnOk, codes};
ghost use Rattle.hex.specs.Hex.{encode_upper};
ghost use Rattle.xfs_token.specs.Token.{IsMac, four_digits, pairs_text};
ghost use Rattle.xfs_token.specs.Token as grammar;

use std::alloc::{AllocError, Global};
use xfs_hmac::upper;

/// How many bytes the field of the HMAC has, which the HMAC doesn't cover: `,HMACSHA256=` and 64 digits.
pub const MAC_FIELD: usize = 76;

/// How many bytes a token has beside its nonce and its pairs.
pub(crate) const FRAME: usize = 113;

fn digits(n: u16) -> [u8; 4]
    ensures { result ≡ four_digits n }
{
    [
        48 + (n / 1000 % 10) as u8,
        48 + (n / 100 % 10) as u8,
        48 + (n / 10 % 10) as u8,
        48 + (n % 10) as u8,
    ]
}

// The bytes that the HMAC covers. Room for the rest is taken with them.
pub(crate) fn covered(
    alloc: Global,
    nonce: &[u8],
    pairs: &[u8],
    total: u16,
) -> Result<Vec<u8>, AllocError>
    ensures { (ps : List (List ℕ × List ℕ)) → pairs.now ≡ pairs_text ps → IfOk result (λ v. v.items ≡ grammar.covered nonce.now ps total) }
{
    let mut text = Vec::with_capacity(alloc, usize::from(total))?;
    text.extend_from_slice(b"NONCE=")?;
    text.extend_from_slice(nonce)?;
    text.extend_from_slice(b",TOKENFORMAT=1,TOKENLENGTH=")?;
    text.extend_from_slice(&digits(total))?;
    text.extend_from_slice(pairs)?;
    Ok(text)
}

// The HMAC at the end of a token.
pub(crate) fn push_mac(text: &mut Vec<u8>, code: &[u8; 32]) -> Result<(), AllocError>
    ensures items { OnOk result (text.new.items ≡ text.old.items ++ codes ",HMACSHA256=" ++ encode_upper code.now) }
    ensures mac { IsMac code.now }
{
    text.extend_from_slice(b",HMACSHA256=")?;
    text.extend_from_slice(&upper(code))?;
    Ok(())
}
