//! The key of the tokens, whose two blocks are hashed once.

ghost use Rattle.std.specs.Prelude.{◌≡◌, ◌↔◌, Err, IfErr, IfOk, IsTrue, false};
ghost use Rattle.xfs_hmac.specs.Hmac.{hmac};
ghost use Rattle.xfs_token.specs.Amounts.{IsMade};
ghost use Rattle.xfs_token.specs.Token as grammar;
ghost use Rattle.xfs_token.specs.Token.{Genuine, Spells};
ghost use Rattle.xfs_token.specs.declared.minting.MakeFault.TheVariants.{BadNonce};

use crate::grammar::is_nonce;
use crate::minting::dispense_text;
use crate::text::{FRAME, MAC_FIELD, covered, push_mac};
use crate::{Amounts, MakeFault, Token};
use std::alloc::Global;
use std::marker::Model;
use xfs_hmac::Key;

/// The key under which many tokens are made and read.
#[derive(Drop)]
pub struct TokenKey {
    // Only proofs read it.
    bytes: [u8; 32],
    prepared: Key,
}

impl Model for TokenKey {
    ghost use Rattle.std.specs.Prelude.{ℕ, List};
    ghost use Rattle.xfs_hmac.specs.Hmac.{IsKey};

    ghost Value = { List ℕ };

    ghost view = { λ k. k.bytes };

    ghost invariant = { λ k. IsKey k.prepared k.bytes };
}

impl TokenKey {
    /// Prepares a key.
    pub fn new(key: [u8; 32]) -> TokenKey
        ensures { result ≡ key }
    {
        TokenKey {
            bytes: key,
            prepared: Key::new(&key),
        }
    }

    /// The HMAC of a message under it.
    pub fn mac(&self, message: &[u8]) -> [u8; 32]
        ensures { result ≡ hmac self.now message.now }
    {
        self.prepared.mac(message)
    }

    /// Whether the HMAC of a token is that of its own bytes. The bytes are the token's text.
    pub fn is_genuine(&self, bytes: &[u8], token: &Token) -> bool
        requires { Spells token.now bytes.now }
        ensures { IsTrue result ↔ Genuine self.now token.now bytes.now }
    {
        let (front, _) = bytes.split_at(bytes.len() - MAC_FIELD);
        self.mac(front) == token.mac()
    }

    /// A genuine token with the nonce and the amounts, under the keys DISPENSE1 onwards in their
    /// order. An amount is written with two decimals, or with three where its last thousandth is not 0.
    pub fn make(&self, alloc: Global, nonce: &[u8], amounts: &Amounts) -> Result<Vec<u8>, MakeFault>
        ensures ok { IfOk result (λ v. IsMade self.now nonce.now amounts.now v.items) }
        ensures bad_nonce { grammar.is_nonce nonce.now ≡ false → result ≡ Err BadNonce }
        ensures cause { IfErr result (λ e. e ≡ BadNonce → grammar.is_nonce nonce.now ≡ false) }
    {
        if !is_nonce(nonce) {
            return Err(MakeFault::BadNonce);
        }
        let pairs = dispense_text(alloc, amounts)?;
        let total = nonce.len() + pairs.len() + FRAME;
        let mut text = covered(alloc, nonce, &pairs, total as u16)?;
        let code = self.mac(&text);
        push_mac(&mut text, &code)?;
        Ok(text)
    }
}
