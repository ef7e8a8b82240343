use crate::work::Work;
use std::alloc::Global;
use xfs_hmac::{Key, mac};

// The 88 bytes of a token of EUR 50 that its HMAC covers.
const COVERED: &[u8] =
    b"NONCE=E56A5D4028BD86530000000000000001,TOKENFORMAT=1,TOKENLENGTH=0164,DISPENSE1=50.00EUR";

// The first bytes of their HMAC under 32 bytes 0x0b, as openssl gives it.
const DUE: [u8; 4] = [0x3d, 0x5c, 0x9e, 0x3c];

/// A token's HMAC, whose key is hashed with each one.
pub(crate) struct TokenMac;

impl Work for TokenMac {
    fn is_right(&self, _alloc: Global) -> bool {
        mac(&[0x0b; 32], COVERED).starts_with(&DUE)
    }
}

/// A token's HMAC, whose key is hashed once.
#[derive(Drop)]
pub(crate) struct KeyedMac {
    key: Key,
}

impl KeyedMac {
    /// Prepares the key.
    pub(crate) fn new() -> KeyedMac {
        KeyedMac {
            key: Key::new(&[0x0b; 32]),
        }
    }
}

impl Work for KeyedMac {
    fn is_right(&self, _alloc: Global) -> bool {
        self.key.mac(COVERED).starts_with(&DUE)
    }
}
