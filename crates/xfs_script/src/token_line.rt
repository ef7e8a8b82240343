ghost use Rattle.std.specs.Prelude.{◌≡◌, List, ℕ, IfOk, IfErr, OnOk, IsTrue, Err};
ghost use Rattle.std.specs.List.{list_all};
ghost use Rattle.xfs_token.specs.Token as grammar;
ghost use Rattle.xfs_script.specs.Fields.{SpellsAmounts};
ghost use Rattle.xfs_script.specs.TokenLines.{IsTokenLine, IsMake, IsMac, IsHex};
ghost use Rattle.xfs_script.specs.declared.token_line.TokenLine.{TokenLine};
ghost use Rattle.xfs_script.specs.declared.guard_line.ScriptFault.TheVariants as ScriptFault;

use crate::amounts::read_amounts;
use crate::guard_line::ScriptFault;
use crate::hex_field::bytes_of_digits;
use crate::word::{field_of, is_skipped, is_word, three_fields};
use std::alloc::Global;
use xfs_base::Bytes;
use xfs_token::Amounts;

/// A line of the command `token`: its verb with its fields.
#[derive(Drop)]
pub enum TokenLine {
    /// An empty line or a comment. It has no answer.
    Skip,
    /// Any bytes, to be read as a token.
    Read(Bytes),
    Make { nonce: Bytes, amounts: Amounts },
    /// The HMAC's key and message.
    Mac { key: Bytes, message: Bytes },
}

/// Reads a line of `token`, given without its end. The allocator is for the bytes that a line holds.
pub fn read_token(alloc: Global, text: &[u8]) -> Result<TokenLine, ScriptFault>
    ensures ok { IfOk result (IsTokenLine text.now) }
    ensures not_a_line { result ≡ Err ScriptFault.NotALine → (line : TokenLine) → ¬ IsTokenLine text.now line }
{
    if is_skipped(text) {
        return Ok(TokenLine::Skip);
    }
    match field_of(text, b"read ") {
        Some(token) => Ok(TokenLine::Read(bytes_of(alloc, token)?)),
        None => read_fields(alloc, text),
    }
}

// The lines with two fields behind the verb.
fn read_fields(alloc: Global, text: &[u8]) -> Result<TokenLine, ScriptFault>
    ensures ok { IfOk result (IsTokenLine text.now) }
    ensures no_make { result ≡ Err ScriptFault.NotALine → (nonce : List ℕ) (amounts : List (List ℕ × ℕ)) → ¬ IsMake text.now nonce amounts }
    ensures no_mac { result ≡ Err ScriptFault.NotALine → (key message : List ℕ) → ¬ IsMac text.now key message }
{
    let Some((verb, first, second)) = three_fields(text) else {
        return Err(ScriptFault::NotALine);
    };
    if is_word(verb, b"make") {
        let (nonce, amounts) = read_make(alloc, first, second)?;
        return Ok(TokenLine::Make { nonce, amounts });
    }
    if is_word(verb, b"mac") {
        let (key, message) = read_mac(alloc, first, second)?;
        return Ok(TokenLine::Mac { key, message });
    }
    Err(ScriptFault::NotALine)
}

fn read_make(alloc: Global, nonce: &[u8], field: &[u8]) -> Result<(Bytes, Amounts), ScriptFault>
    ensures nonce { IfOk result (λ m. m.0 ≡ nonce.now) }
    ensures valid { OnOk result (IsTrue (grammar.is_nonce nonce.now)) }
    ensures amounts { IfOk result (λ m. SpellsAmounts field.now m.1) }
    ensures not_a_line { result ≡ Err ScriptFault.NotALine → (a : List (List ℕ × ℕ)) → IsTrue (grammar.is_nonce nonce.now) → ¬ SpellsAmounts field.now a }
{
    if !is_nonce(nonce) {
        return Err(ScriptFault::NotALine);
    }
    let Some(amounts) = read_amounts(field) else {
        return Err(ScriptFault::NotALine);
    };
    Ok((bytes_of(alloc, nonce)?, amounts))
}

fn read_mac(alloc: Global, key: &[u8], message: &[u8]) -> Result<(Bytes, Bytes), ScriptFault>
    ensures key { IfOk result (λ m. IsHex key.now m.0) }
    ensures message { IfOk result (λ m. IsHex message.now m.1) }
    ensures not_a_line { result ≡ Err ScriptFault.NotALine → (a b : List ℕ) → IsHex key.now a → ¬ IsHex message.now b }
{
    let key = read_hex(alloc, key)?;
    let message = read_hex(alloc, message)?;
    Ok((key, message))
}

fn read_hex(alloc: Global, field: &[u8]) -> Result<Bytes, ScriptFault>
    ensures ok { IfOk result (IsHex field.now) }
    ensures not_a_line { result ≡ Err ScriptFault.NotALine → (bytes : List ℕ) → ¬ IsHex field.now bytes }
{
    if is_word(field, b"-") {
        return Ok(Bytes::new(Vec::new(alloc)));
    }
    match bytes_of_digits(alloc, field) {
        Ok(Some(bytes)) => Ok(Bytes::new(bytes)),
        Ok(None) => Err(ScriptFault::NotALine),
        Err(_) => Err(ScriptFault::Memory),
    }
}

pub(crate) fn bytes_of(alloc: Global, text: &[u8]) -> Result<Bytes, ScriptFault>
    ensures ok { IfOk result (λ bytes. bytes ≡ text.now) }
    ensures err { IfErr result (λ e. e ≡ ScriptFault.Memory) }
{
    match Vec::from_slice(alloc, text) {
        Ok(list) => Ok(Bytes::new(list)),
        Err(_) => Err(ScriptFault::Memory),
    }
}

pub(crate) fn is_nonce(field: &[u8]) -> bool
    ensures { result ≡ grammar.is_nonce field.now }
{
    field.len() >= 1 && field.len() <= 128 && are_upper_hex(field)
}

fn are_upper_hex(bytes: &[u8]) -> bool
    ensures { result ≡ list_all grammar.is_upper_hex bytes.now }
{
    bytes.iter().all(|b| is_upper_hex(*b))
}

fn is_upper_hex(b: u8) -> bool
    ensures { result ≡ grammar.is_upper_hex b }
{
    (b >= b'0' && b <= b'9') || (b >= b'A' && b <= b'F')
}
