//! HMAC-SHA-256, whole and in pieces: RFC 2104 over the SHA-256 of FIPS 180-4. Nothing takes memory.
#![tactic(auto)]

ghost use Rattle.std.specs.Prelude.{◌≡◌};
ghost use Rattle.xfs_hmac.specs.Hmac.{hmac};
ghost use Rattle.hex.specs.Hex.{encode_upper};

pub use key::Key;
pub use pieces::Mac;

mod key;
mod pieces;

/// The HMAC of a whole message under a key of any length.
pub fn mac(key: &[u8], message: &[u8]) -> [u8; 32]
    ensures { result ≡ hmac key.now message.now }
{
    let mut mac = Mac::new(key);
    mac.update(message);
    mac.finish()
}

/// The 64 upper-case hexadecimal digits of an HMAC.
pub fn upper(bytes: &[u8; 32]) -> [u8; 64]
    ensures { result ≡ encode_upper bytes.now }
{
    let digits = b"0123456789ABCDEF";
    let mut text = [0u8; 64];
    'bytes: for i in 0..32 {
        let byte = bytes[i];
        text[2 * i] = digits[(byte >> 4) as usize];
        text[2 * i + 1] = digits[(byte & 0x0f) as usize];
    }
    text
}
