ghost use Rattle.std.specs.Prelude.{◌≡◌, false, Err, IfOk, OnOk, IsTrue};
ghost use Rattle.std.specs.List.{list_all};
ghost use Rattle.std.specs.Char.{is_ascii_alphanumeric, is_ascii_digit};
ghost use Rattle.xfs_envelope.specs.Names.{is_part, is_name, is_number, is_version};
ghost use Rattle.xfs_envelope.specs.declared.name.NameFault.TheVariants.{Form};

use std::alloc::Global;
use std::marker::Model;

/// The name of a message: two parts joined by a point, each a letter A to Z and at most 63
/// letters or digits, as in `Common.Status` (CWA XFS4IoT).
#[derive(Debug, Drop)]
pub struct Name {
    text: String,
}

/// Why a text is no name: it has another form, or memory ran out.
#[derive(Clone, Copy, Debug, PartialEq, Eq)]
pub enum NameFault {
    Form,
    Memory,
}

impl Model for Name {
    ghost use Rattle.std.specs.Prelude.{ℕ, List, IsTrue, string_bytes};
    ghost use Rattle.xfs_envelope.specs.Names.{is_name};

    ghost Value = { List ℕ };

    ghost view = { λ n. string_bytes n.text };

    ghost invariant = { λ n. IsTrue (is_name (string_bytes n.text)) };
}

impl Name {
    /// The name with this text. `Form` exactly where the text has another form.
    pub fn new(alloc: Global, text: &[u8]) -> Result<Name, NameFault>
        ensures text { IfOk result (λ n. n ≡ text.now) }
        ensures name { OnOk result (IsTrue (is_name text.now)) }
        ensures form { result ≡ Err Form → is_name text.now ≡ false }
    {
        match str::from_utf8(text) {
            Ok(text) => Name::of(alloc, text),
            Err(_) => Err(NameFault::Form),
        }
    }

    pub(crate) fn of(alloc: Global, text: &str) -> Result<Name, NameFault>
        ensures text { IfOk result (λ n. n ≡ text.now) }
        ensures name { OnOk result (IsTrue (is_name text.now)) }
        ensures form { result ≡ Err Form → is_name text.now ≡ false }
    {
        if !is_name(text) {
            return Err(NameFault::Form);
        }
        match String::from_str(alloc, text) {
            Ok(text) => Ok(Name { text }),
            Err(_) => Err(NameFault::Memory),
        }
    }

    /// The name's text.
    pub fn as_str(&self) -> &str
        ensures text { result.now ≡ self.now }
        ensures name { IsTrue (is_name self.now) }
    {
        self.text.as_str()
    }
}

fn is_name(text: &str) -> bool
    ensures { result ≡ is_name text.now }
{
    match text.split_once('.') {
        Some((first, second)) => is_part(first.as_bytes()) && is_part(second.as_bytes()),
        None => false,
    }
}

fn is_part(part: &[u8]) -> bool
    ensures { result ≡ is_part part.now }
{
    match part {
        [first, rest @ ..] => {
            first.is_ascii_uppercase() && rest.len() <= 63 && are_alphanumeric(rest)
        }
        [] => false,
    }
}

/// Whether a text is two numbers of 1 to 9 digits joined by a point.
pub(crate) fn is_version(text: &str) -> bool
    ensures { result ≡ is_version text.now }
{
    match text.split_once('.') {
        Some((major, minor)) => is_number(major.as_bytes()) && is_number(minor.as_bytes()),
        None => false,
    }
}

fn is_number(text: &[u8]) -> bool
    ensures { result ≡ is_number text.now }
{
    !text.is_empty() && text.len() <= 9 && are_digits(text)
}

fn are_alphanumeric(bytes: &[u8]) -> bool
    ensures { result ≡ list_all is_ascii_alphanumeric bytes.now }
{
    bytes.iter().all(|b| b.is_ascii_alphanumeric())
}

fn are_digits(bytes: &[u8]) -> bool
    ensures { result ≡ list_all is_ascii_digit bytes.now }
{
    bytes.iter().all(|b| b.is_ascii_digit())
}
