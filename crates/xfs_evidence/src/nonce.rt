//! The nonce that an evidence is asked with.

ghost use Rattle.std.specs.Prelude.{◌≡◌};
ghost use Rattle.std.specs.List.{list_all};
ghost use Rattle.xfs_token.specs.Token as grammar;

/// Whether a text is a nonce: 1 to 128 digits 0 to 9 and A to F. `evidence` takes no other.
pub fn is_nonce(text: &[u8]) -> bool
    ensures { result ≡ grammar.is_nonce text.now }
{
    text.len() >= 1 && text.len() <= 128 && is_hex(text)
}

fn is_hex(bytes: &[u8]) -> bool
    ensures { result ≡ list_all grammar.is_upper_hex bytes.now }
{
    bytes.iter().all(|b| is_upper_hex(*b))
}

fn is_upper_hex(b: u8) -> bool
    ensures { result ≡ grammar.is_upper_hex b }
{
    (b >= b'0' && b <= b'9') || (b >= b'A' && b <= b'F')
}
