ghost use Rattle.std.specs.Prelude.{◌≡◌, ◌<◌, ◌≤◌, ℕ, List, ◌↔◌, IsTrue, IfOk, IfErr, IsErr, length, map};
ghost use Rattle.xfs_token.specs.Token.{Genuine, Spells, form, pairs_text};
ghost use Rattle.xfs_token.specs.Pairs.{pair_of};
ghost use Rattle.xfs_token.specs.declared.signing.WriteFault.TheVariants.{TooLong};

use crate::pair::Pair;
use crate::text::{FRAME, covered, push_mac};
use crate::{Token, TokenKey};
use std::alloc::{AllocError, Global};

/// Whether the HMAC of a token is that of its own bytes under a key. The bytes are the token's text.
pub fn genuine(key: &[u8; 32], bytes: &[u8], token: &Token) -> bool
    requires { Spells token.now bytes.now }
    ensures { IsTrue result ↔ Genuine key.now token.now bytes.now }
{
    TokenKey::new(*key).is_genuine(bytes, token)
}

/// Why a token was not written.
#[derive(Clone, Copy, Debug, PartialEq, Eq)]
pub enum WriteFault {
    /// Its text has more than 1,024 bytes.
    TooLong,
    Memory,
}

impl From<AllocError> for WriteFault {
    ghost use Rattle.xfs_token.specs.declared.signing.WriteFault.TheVariants.{Memory};

    ghost from_gives = { λ _ e. e ≡ Memory };

    fn from(_: AllocError) -> Self {
        WriteFault::Memory
    }
}

/// The one text of a token.
pub fn write(alloc: Global, token: &Token) -> Result<Vec<u8>, WriteFault>
    ensures ok { IfOk result (λ v. Spells token.now v.items) }
    ensures one { IfOk result (λ v. (bytes : List ℕ) → Spells token.now bytes → bytes ≡ v.items) }
    ensures too_long { IfErr result (λ e. e ≡ TooLong → (n : ℕ) → 1024 < length (form token.now n)) }
    ensures short { IfOk result (λ v. (n : ℕ) → length (form token.now n) ≤ 1024) }
{
    let pairs = text_of(alloc, token.pairs())?;
    let total = token.nonce().len() + pairs.len() + FRAME;
    if total > 1024 {
        return Err(WriteFault::TooLong);
    }
    let mut text = covered(alloc, token.nonce(), &pairs, total as u16)?;
    push_mac(&mut text, &token.mac())?;
    Ok(text)
}

// Each pair behind a comma.
fn text_of(alloc: Global, pairs: &[Pair]) -> Result<Vec<u8>, AllocError>
    ensures { IfOk result (λ v. v.items ≡ pairs_text (map pair_of pairs.now)) }
{
    let mut text = Vec::new(alloc);
    for p in pairs {
        text.extend_from_slice(b",")?;
        text.extend_from_slice(&p.key)?;
        text.extend_from_slice(b"=")?;
        text.extend_from_slice(&p.value)?;
    }
    Ok(text)
}
