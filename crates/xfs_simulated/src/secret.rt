//! The key of the tokens and the seed of the nonces, and how a file tells one of them.

ghost use Rattle.std.specs.Prelude.{◌≡◌};
ghost use Rattle.xfs_simulated.specs.Secrets.{digits_of, secret_in};

use crate::machine::{KEY, SEED};
use hex::FromHex;

// The digits of 32 bytes.
const DIGITS: usize = 64;

/// The key of the tokens' HMAC, and the seed of the nonces.
#[derive(Clone, Copy, Debug, PartialEq, Eq)]
pub struct Secrets {
    pub key: [u8; 32],
    pub seed: [u8; 32],
}

/// Those of a machine that has no files of them.
pub const OWN: Secrets = Secrets {
    key: KEY,
    seed: SEED,
};

/// Those of the second machine of `fleet`: 32 bytes 0x0c, and 32 bytes 0x01.
pub const SECOND: Secrets = Secrets {
    key: [0x0c; 32],
    seed: [0x01; 32],
};

/// The 32 bytes that a file's text tells. None exactly where it isn't 64 hexadecimal digits, of either case, behind which
/// one line feed may stand.
pub fn secret_in(text: &[u8]) -> Option<[u8; 32]>
    ensures { result ≡ secret_in text.now }
{
    <[u8; 32]>::from_hex(digits_of(text)).ok()
}

// The text without the line feed that an editor writes behind 64 digits.
fn digits_of(text: &[u8]) -> &[u8]
    ensures { result.now ≡ digits_of text.now }
{
    if text.len() == DIGITS + 1 && text[DIGITS] == b'\n' {
        text.split_at(DIGITS).0
    } else {
        text
    }
}
