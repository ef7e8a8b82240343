//! An HMAC that is fed with pieces of its message.

ghost use Rattle.std.specs.Prelude.{◌≡◌, ◌≤◌, ◌-◌, ℕ, List, [], ◌++◌, length, map, replicate, bit_xor};
ghost use Rattle.xfs_hmac.specs.Hmac.{hmac, block_key, masked, HoldsMac};

use sha2::{Digest, Sha256};
use std::alloc::AllocError;

/// An HMAC whose message comes in pieces, however they are cut.
#[derive(Drop)]
pub struct Mac {
    inner: Sha256,
    outer: Sha256,
}

impl Mac {
    /// Begins with a key of any length and the empty message.
    pub fn new(key: &[u8]) -> Mac
        ensures { HoldsMac result key.now [] }
    {
        let block = block_of(key);
        let mut inner = Sha256::new();
        inner.update(masked_with(&block, 0x36));
        let mut outer = Sha256::new();
        outer.update(masked_with(&block, 0x5c));
        Mac { inner, outer }
    }

    // Another one with the same key and message.
    pub(crate) fn copy(&self) -> Mac
        ensures { result ≡ self.now }
    {
        let inner: Result<Sha256, AllocError> = self.inner.clone();
        let outer: Result<Sha256, AllocError> = self.outer.clone();
        match (inner, outer) {
            (Ok(inner), Ok(outer)) => Mac { inner, outer },
            _ => unreachable!(),
        }
    }

    /// Adds a piece to the message.
    pub fn update(&mut self, piece: &[u8])
        ensures { (k m : List ℕ) → HoldsMac self.old k m → HoldsMac self.new k (m ++ piece.now) }
    {
        self.inner.update(piece);
    }

    /// The HMAC of the pieces joined.
    pub fn finish(self) -> [u8; 32]
        ensures { (k m : List ℕ) → HoldsMac self k m → result ≡ hmac k m }
    {
        let Mac { inner, mut outer } = self;
        outer.update(inner.finalize());
        outer.finalize()
    }
}

// The key's block.
fn block_of(key: &[u8]) -> [u8; 64]
    ensures { result ≡ block_key key.now }
{
    if key.len() > 64 {
        filled(&Sha256::digest(key))
    } else {
        filled(key)
    }
}

// The bytes, and zeros behind them up to a block.
fn filled(bytes: &[u8]) -> [u8; 64]
    requires { length bytes.now ≤ 64 }
    ensures { result ≡ bytes.now ++ replicate (64 - length bytes.now) 0 }
{
    let mut block = [0u8; 64];
    'bytes: for i in 0..bytes.len() {
        block[i] = bytes[i];
    }
    block
}

// Each byte of the block, combined with the mask.
fn masked_with(block: &[u8; 64], mask: u8) -> [u8; 64]
    ensures { result ≡ map (λ b. bit_xor b mask) block.now }
{
    let mut out = [0u8; 64];
    'bytes: for i in 0..64 {
        out[i] = block[i] ^ mask;
    }
    out
}
