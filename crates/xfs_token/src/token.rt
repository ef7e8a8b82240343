ghost use Rattle.std.specs.Prelude.{◌≡◌, ◌<◌, ◌++◌, ◌∷◌, [], length, map, replicate, IfOk, IfErr, OnOk, OnErr, IsTrue, slice_get, Some, Err, true, false};
ghost use Rattle.std.specs.Option.{option_map};
ghost use Rattle.xfs_token.specs.Token as grammar;
ghost use Rattle.xfs_token.specs.Token.{IsMac, IsWellFormed, Parts, is_free_key, is_value};
ghost use Rattle.xfs_token.specs.Building.{IsRefusedAs, add_refusal};
ghost use Rattle.xfs_token.specs.Pairs.{pair_of};
ghost use Rattle.xfs_token.specs.declared.token.BuildFault.TheVariants.{BadNonce, BadKey, BadValue, Memory};

use crate::grammar::{is_key, is_nonce, is_reserved, is_value};
use crate::pair::{Pair, has_key};
use std::alloc::{AllocError, Global};
use std::marker::Model;

/// Why a token was not begun, or a pair not added.
#[derive(Clone, Copy, Debug, PartialEq, Eq)]
pub enum BuildFault {
    /// The nonce is not 1 to 128 upper-case hexadecimal digits.
    BadNonce,
    /// The key is not of the grammar, is reserved, or is there already.
    BadKey,
    /// The value is empty or has a byte that a value may not have.
    BadValue,
    Memory,
}

impl From<AllocError> for BuildFault {
    ghost use Rattle.xfs_token.specs.declared.token.BuildFault.TheVariants.{Memory};

    ghost from_gives = { λ _ e. e ≡ Memory };

    fn from(_: AllocError) -> Self {
        BuildFault::Memory
    }
}

/// A token's parts: its nonce, its pairs of key and value, and its HMAC. Its text is this project's
/// profile (docs/TOKEN.md) of the end-to-end security token of CWA XFS4IoT.
#[derive(Drop)]
pub struct Token {
    nonce: Vec<u8>,
    pairs: Vec<Pair>,
    mac: [u8; 32],
    alloc: Global,
}

impl Model for Token {
    ghost use Rattle.xfs_token.specs.Token.{Parts, IsWellFormed};

    ghost Value = { Parts };

    ghost use Rattle.xfs_token.specs.Pairs.{parts};

    ghost view = { λ t. parts t.nonce.items t.pairs.items t.mac };

    ghost invariant = { λ t. IsWellFormed (parts t.nonce.items t.pairs.items t.mac) };
}

impl Token {
    /// A token with no pairs and an HMAC of zeros.
    pub fn begin(alloc: Global, nonce: &[u8]) -> Result<Token, BuildFault>
        ensures ok { IfOk result (λ t. t ≡ record { nonce = nonce.now; pairs = []; mac = replicate 32 0 }) }
        ensures bad_nonce { grammar.is_nonce nonce.now ≡ false → result ≡ Err BadNonce }
        ensures cause { IfErr result (λ e. e ≡ BadNonce → grammar.is_nonce nonce.now ≡ false) }
    {
        if !is_nonce(nonce) {
            return Err(BuildFault::BadNonce);
        }
        Ok(Token::begun(alloc, nonce)?)
    }

    // A nonce of the grammar needs no second look.
    pub(crate) fn begun(alloc: Global, nonce: &[u8]) -> Result<Token, AllocError>
        requires { IsTrue (grammar.is_nonce nonce.now) }
        ensures { IfOk result (λ t. t ≡ record { nonce = nonce.now; pairs = []; mac = replicate 32 0 }) }
    {
        Ok(Token {
            nonce: Vec::from_slice(alloc, nonce)?,
            pairs: Vec::new(alloc),
            mac: [0; 32],
            alloc,
        })
    }

    /// Adds a pair behind the others. The key is looked at before the value; a token that refuses
    /// a pair is as before.
    pub fn add(&mut self, key: &[u8], value: &[u8]) -> Result<(), BuildFault>
        ensures ok { OnOk result (self.new ≡ record self.old { pairs = self.old.pairs ++ (key.now, value.now) ∷ [] }) }
        ensures same { OnErr result (self.new ≡ self.old) }
        ensures refused { IsRefusedAs (add_refusal self.old.pairs key.now value.now) result }
    {
        if !is_free(key, &self.pairs) {
            return Err(BuildFault::BadKey);
        }
        if !is_value(value) {
            return Err(BuildFault::BadValue);
        }
        self.push(key, value)?;
        Ok(())
    }

    // A pair of the grammar needs no second look.
    pub(crate) fn push(&mut self, key: &[u8], value: &[u8]) -> Result<(), AllocError>
        requires key { IsTrue (is_free_key key.now self.old.pairs) }
        requires value { IsTrue (grammar.is_value value.now) }
        ensures ok { OnOk result (self.new ≡ record self.old { pairs = self.old.pairs ++ (key.now, value.now) ∷ [] }) }
        ensures err { OnErr result (self.new ≡ self.old) }
    {
        let key = Vec::from_slice(self.alloc, key)?;
        let value = Vec::from_slice(self.alloc, value)?;
        if self.pairs.push(Pair { key, value }).is_err() {
            return Err(AllocError);
        }
        Ok(())
    }

    /// Sets the HMAC, whatever it is; `genuine` says whether it is that of the token's bytes.
    pub fn set_mac(&mut self, mac: [u8; 32])
        ensures { self.new ≡ record self.old { mac = mac } }
    {
        self.mac = mac;
    }

    /// The nonce: 1 to 128 upper-case hexadecimal digits.
    pub fn nonce(&self) -> &[u8]
        ensures { result.now ≡ self.now.nonce }
    {
        &self.nonce
    }

    /// How many pairs there are.
    pub fn len(&self) -> usize
        ensures { result ≡ length self.now.pairs }
    {
        self.pairs.len()
    }

    /// The key of the pair at a place, from 0.
    pub fn key(&self, i: usize) -> &[u8]
        requires { i < length self.now.pairs }
        ensures { option_map (λ p. p.0) (slice_get self.now.pairs i) ≡ Some result.now }
    {
        &self.pairs[i].key
    }

    /// The value of the pair at a place, from 0.
    pub fn value(&self, i: usize) -> &[u8]
        requires { i < length self.now.pairs }
        ensures { option_map (λ p. p.1) (slice_get self.now.pairs i) ≡ Some result.now }
    {
        &self.pairs[i].value
    }

    /// The HMAC that the token carries.
    pub fn mac(&self) -> [u8; 32]
        ensures { result ≡ self.now.mac }
    {
        self.mac
    }

    pub(crate) fn pairs(&self) -> &[Pair]
        ensures pairs { map pair_of result.now ≡ self.now.pairs }
        ensures formed { IsWellFormed self.now }
    {
        &self.pairs
    }
}

fn is_free(key: &[u8], pairs: &[Pair]) -> bool
    ensures { result ≡ is_free_key key.now (map pair_of pairs.now) }
{
    is_key(key) && !is_reserved(key) && !has_key(pairs, key)
}
