//! The text of a nonce.

ghost use Rattle.std.specs.Prelude.{◌≡◌, ◌++◌};
ghost use Rattle.std.specs.Int.{to_be_bytes, w64};
ghost use Rattle.hex.specs.Hex.{encode_upper};
ghost use Rattle.xfs_journal.specs.Journal.{nonce_text};

/// The text of an issue's nonce.
pub fn nonce_text(number: u64, word: u64) -> [u8; 32]
    ensures { result ≡ nonce_text number word }
{
    upper(&issue_bytes(number, word))
}

// The bytes of the word, then those of the number.
fn issue_bytes(number: u64, word: u64) -> [u8; 16]
    ensures { result ≡ to_be_bytes w64 word ++ to_be_bytes w64 number }
{
    let mut bytes = [0u8; 16];
    bytes[..8].copy_from_slice(&word.to_be_bytes());
    bytes[8..].copy_from_slice(&number.to_be_bytes());
    bytes
}

// The upper-case hexadecimal digits of the bytes.
fn upper(bytes: &[u8; 16]) -> [u8; 32]
    ensures { result ≡ encode_upper bytes.now }
{
    let mut text = [0u8; 32];
    match hex::encode_to_slice(bytes, &mut text) {
        Ok(()) => text.make_ascii_uppercase(),
        Err(_) => unreachable!(),
    }
    text
}
