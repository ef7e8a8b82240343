//! A key whose two blocks are prepared once.

ghost use Rattle.std.specs.Prelude.{◌≡◌, ℕ, List, []};
ghost use Rattle.xfs_hmac.specs.Hmac.{hmac, HoldsMac, IsKey};

use crate::Mac;

/// A key that many messages are to have their HMAC under. Its inner and its outer block are hashed once, here,
/// instead of with each message (RFC 2104, section 4).
#[derive(Drop)]
pub struct Key {
    begun: Mac,
}

impl Key {
    /// Prepares a key of any length.
    pub fn new(key: &[u8]) -> Key
        ensures { IsKey result key.now }
    {
        Key {
            begun: Mac::new(key),
        }
    }

    /// An HMAC under it, with the empty message.
    pub fn begin(&self) -> Mac
        ensures { (k : List ℕ) → IsKey self.now k → HoldsMac result k [] }
    {
        self.begun.copy()
    }

    /// The HMAC of a whole message under it.
    pub fn mac(&self, message: &[u8]) -> [u8; 32]
        ensures { (k : List ℕ) → IsKey self.now k → result ≡ hmac k message.now }
    {
        let mut mac = self.begin();
        mac.update(message);
        mac.finish()
    }
}
