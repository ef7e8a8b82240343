//! A caller of xfs_token.

ghost use Rattle.std.specs.Prelude.{◌≡◌, IfOk, Err};
ghost use Rattle.xfs_callers.specs.declared.admission.Denial.TheVariants as Denial;
ghost use Rattle.xfs_token.specs.Token.{Genuine, Parts, Spells};

use std::alloc::Global;
use xfs_token::{Token, TokenFault, genuine, read};

/// Why a text was not admitted.
#[derive(Clone, Copy, Debug, PartialEq, Eq)]
pub enum Denial {
    /// It spells no token.
    NoToken,
    /// Its HMAC is not that of its own bytes under the key.
    Forged,
    Memory,
}

/// The token of a text, where it is genuine.
pub fn admit(alloc: Global, key: &[u8; 32], text: &[u8]) -> Result<Token, Denial>
    ensures admitted { IfOk result (λ token. Spells token text.now × Genuine key.now token text.now) }
    ensures no_token { result ≡ Err Denial.NoToken → (token : Parts) → ¬ (Spells token text.now) }
    ensures forged { result ≡ Err Denial.Forged → (token : Parts) × Spells token text.now × ¬ (Genuine key.now token text.now) }
{
    let token = match read(alloc, text) {
        Ok(token) => token,
        Err(TokenFault::Memory) => return Err(Denial::Memory),
        Err(_) => return Err(Denial::NoToken),
    };
    if genuine(key, text, &token) {
        Ok(token)
    } else {
        Err(Denial::Forged)
    }
}
