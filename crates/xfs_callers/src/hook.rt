//! A caller of xfs_hmac.

ghost use Rattle.std.specs.Prelude.{◌≡◌};
ghost use Rattle.hex.specs.Hex.{encode_upper};
ghost use Rattle.xfs_hmac.specs.Hmac.{hmac};

use xfs_hmac::{mac, upper};

/// The line that signs the body of a web hook: its HMAC, in upper-case hexadecimal digits.
pub fn signature(key: &[u8], body: &[u8]) -> [u8; 64]
    ensures { result ≡ encode_upper (hmac key.now body.now) }
{
    upper(&mac(key, body))
}
