ghost use Rattle.std.specs.Prelude.{◌≡◌};
ghost use Rattle.std.specs.List.{list_all, prefix_len};
ghost use Rattle.xfs_token.specs.Classes.{class_has};
ghost use Rattle.xfs_token.specs.Token as grammar;
ghost use Rattle.xfs_token.specs.Amounts as money;

/// The bytes that one part of a token may have.
#[derive(Clone, Copy)]
pub(crate) enum Class {
    Digit,
    Letter,
    Hex,
    Key,
    Value,
}

impl Class {
    pub(crate) fn has(self, b: u8) -> bool
        ensures { result ≡ class_has self b }
    {
        match self {
            Class::Digit => is_digit(b),
            Class::Letter => is_letter(b),
            Class::Hex => is_digit(b) || (b >= b'A' && b <= b'F'),
            Class::Key => is_letter(b) || is_digit(b),
            Class::Value => b >= b'!' && b <= b'~' && b != b',' && b != b'=',
        }
    }
}

fn is_digit(b: u8) -> bool
    ensures { result ≡ grammar.is_digit b }
{
    b >= b'0' && b <= b'9'
}

fn is_letter(b: u8) -> bool
    ensures { result ≡ grammar.is_letter b }
{
    b >= b'A' && b <= b'Z'
}

// How many bytes at the front are of the class.
pub(crate) fn run_len(bytes: &[u8], class: Class) -> usize
    ensures { result ≡ prefix_len (class_has class) bytes.now }
{
    let mut n = 0;
    while n < bytes.len() && class.has(bytes[n]) {
        n += 1;
    }
    n
}

pub(crate) fn all_of(bytes: &[u8], class: Class) -> bool
    ensures { result ≡ list_all (class_has class) bytes.now }
{
    bytes.iter().all(|b| class.has(*b))
}

pub(crate) fn is_nonce(nonce: &[u8]) -> bool
    ensures { result ≡ grammar.is_nonce nonce.now }
{
    nonce.len() >= 1 && nonce.len() <= 128 && all_of(nonce, Class::Hex)
}

pub(crate) fn is_key(key: &[u8]) -> bool
    ensures { result ≡ grammar.is_key key.now }
{
    key.len() >= 1 && key.len() <= 32 && is_letter(key[0]) && all_of(key, Class::Key)
}

pub(crate) fn is_value(value: &[u8]) -> bool
    ensures { result ≡ grammar.is_value value.now }
{
    value.len() >= 1 && all_of(value, Class::Value)
}

pub(crate) fn is_reserved(key: &[u8]) -> bool
    ensures { result ≡ grammar.is_reserved key.now }
{
    key == b"NONCE".as_slice()
        || key == b"TOKENFORMAT".as_slice()
        || key == b"TOKENLENGTH".as_slice()
        || key == b"HMACSHA256".as_slice()
}

pub(crate) fn is_currency(letters: &[u8]) -> bool
    ensures { result ≡ money.is_currency letters.now }
{
    letters.len() == 3 && all_of(letters, Class::Letter)
}
