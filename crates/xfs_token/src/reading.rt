ghost use Rattle.std.specs.Prelude.{◌≡◌, ◌+◌, ◌-◌, ◌<◌, ◌≤◌, ◌++◌, ◌==◌, ◌&&◌, ◌∷◌, [], ℕ, List, nat_eq, length, map, take, drop, codes, IfOk, IfErr, IsTrue};
ghost use Rattle.std.specs.List.{common_prefix_len, prefix_len};
ghost use Rattle.std.specs.Str.{bytes_eq};
ghost use Rattle.hex.specs.Hex.{encode_upper};
ghost use Rattle.xfs_token.specs.Classes.{class_has};
ghost use Rattle.xfs_token.specs.Token as grammar;
ghost use Rattle.xfs_token.specs.Token.{IsMac, four_digits, pairs_text};
ghost use Rattle.xfs_token.specs.Pairs.{pair_of};
ghost use Rattle.xfs_token.specs.Reading.{decimal_number, first_in, first_is, IsStuck, IsNonceAt, IsKeyAt, IsValueAt, IsFormatAt, IsLengthAt, LengthThen, MacEnd, NonceThen, Tail, ValueThen, WordThen};

use crate::grammar::{Class, is_reserved, run_len};
use crate::pair::{Pair, has_key};
use hex::FromHex;

// How far a text is as a word.
pub(crate) fn common_len(text: &[u8], word: &[u8]) -> usize
    ensures { result ≡ common_prefix_len nat_eq text.now word.now }
{
    let mut n = 0;
    while n < text.len() && n < word.len() && text[n] == word[n] {
        n += 1;
    }
    n
}

// The front of a text, up to a limit.
fn cut(text: &[u8], most: usize) -> &[u8]
    ensures { result.now ≡ take most text.now }
{
    if text.len() <= most {
        text
    } else {
        text.split_at(most).0
    }
}

pub(crate) fn begins(text: &[u8], byte: u8) -> bool
    ensures { result ≡ first_is byte text.now }
{
    match text {
        [] => false,
        [first, ..] => *first == byte,
    }
}

fn first_has(text: &[u8], class: Class) -> bool
    ensures { result ≡ first_in (class_has class) text.now }
{
    match text {
        [] => false,
        [first, ..] => class.has(*first),
    }
}

pub(crate) fn is_mac_key(key: &[u8]) -> bool
    ensures { result ≡ bytes_eq key.now (codes "HMACSHA256") }
{
    key == b"HMACSHA256".as_slice()
}

// A key of the greatest length that is there already can't be made another by more bytes.
fn fills(len: usize, taken: bool) -> bool
    ensures { result ≡ (len == 32 && taken) }
{
    len == 32 && taken
}

// Where the nonce ends, from behind NONCE= on; else how many bytes are left at the fault.
pub(crate) fn nonce_len(text: &[u8]) -> Result<usize, usize>
    ensures ok { IfOk result (λ n. IsNonceAt text.now n) }
    ensures err { IfErr result (λ left. IsStuck NonceThen text.now left) }
{
    let n = run_len(cut(text, 128), Class::Hex);
    if n == 0 {
        return Err(text.len());
    }
    let (_, rest) = text.split_at(n);
    if !begins(rest, b',') {
        return Err(rest.len());
    }
    Ok(n)
}

// Where a key ends, from behind a comma on; else how many bytes are left at the fault.
pub(crate) fn key_len(text: &[u8], pairs: &[Pair]) -> Result<usize, usize>
    requires { length (pairs_text (map pair_of pairs.now)) ≤ 1024 }
    ensures ok { IfOk result (λ n. IsKeyAt (map pair_of pairs.now) text.now n) }
    ensures err { IfErr result (λ left. IsStuck (Tail (map pair_of pairs.now)) text.now left) }
{
    if !first_has(text, Class::Letter) {
        return Err(text.len());
    }
    let n = run_len(cut(text, 32), Class::Key);
    let (key, rest) = text.split_at(n);
    let taken = has_key(pairs, key);
    if fills(n, taken) {
        return Err(rest.len() + 1);
    }
    if !begins(rest, b'=') {
        return Err(rest.len());
    }
    if is_mac_key(key) {
        return Ok(n);
    }
    if taken {
        return Err(rest.len());
    }
    if is_reserved(key) {
        return Err(rest.len());
    }
    Ok(n)
}

// Where a value ends; else how many bytes are left at the fault.
pub(crate) fn value_len(text: &[u8]) -> Result<usize, usize>
    ensures ok { IfOk result (λ n. IsValueAt text.now n) }
    ensures err { IfErr result (λ left. (earlier : List (List ℕ × List ℕ)) (key : List ℕ) → IsStuck (ValueThen earlier key) text.now left) }
{
    let n = run_len(text, Class::Value);
    if n == 0 {
        return Err(text.len());
    }
    let (_, rest) = text.split_at(n);
    if !begins(rest, b',') {
        return Err(rest.len());
    }
    Ok(n)
}

// The HMAC that the text is; else how many bytes are left at the fault.
pub(crate) fn mac_of(text: &[u8]) -> Result<[u8; 32], usize>
    ensures ok { IfOk result (λ mac. IsMac mac × (text.now ≡ encode_upper mac)) }
    ensures err { IfErr result (λ left. IsStuck MacEnd text.now left) }
{
    let n = run_len(cut(text, 64), Class::Hex);
    let (_, rest) = text.split_at(n);
    if n < 64 {
        return Err(rest.len());
    }
    if !rest.is_empty() {
        return Err(rest.len());
    }
    match <[u8; 32]>::from_hex(text) {
        Ok(mac) => Ok(mac),
        Err(_) => Err(0),
    }
}

// The number in the length field, which a comma follows; else how many bytes are left at the fault.
pub(crate) fn length_field(text: &[u8]) -> Result<usize, usize>
    ensures ok { IfOk result (λ n. IsLengthAt text.now n) }
    ensures err { IfErr result (λ left. IsStuck LengthThen text.now left) }
{
    let n = run_len(cut(text, 4), Class::Digit);
    let (digits, rest) = text.split_at(n);
    if n < 4 {
        return Err(rest.len());
    }
    if !begins(rest, b',') {
        return Err(rest.len());
    }
    Ok(number_in(digits))
}

fn number_in(digits: &[u8]) -> usize
    requires { 4 ≤ length digits.now }
    ensures { result ≡ decimal_number digits.now }
{
    1000 * digit(digits[0]) + 100 * digit(digits[1]) + 10 * digit(digits[2]) + digit(digits[3])
}

fn digit(b: u8) -> usize
    ensures { result ≡ b - 48 }
{
    usize::from(b.saturating_sub(48))
}

// The number in the length field, from behind the nonce's comma on; else how many bytes are left
// at the fault.
pub(crate) fn format_field(text: &[u8]) -> Result<usize, usize>
    ensures ok { IfOk result (λ n. IsFormatAt text.now n) }
    ensures err { IfErr result (λ left. IsStuck (WordThen (codes "TOKENFORMAT=1,TOKENLENGTH=") LengthThen) text.now left) }
{
    let n = common_len(text, b"TOKENFORMAT=1,TOKENLENGTH=");
    if n < 26 {
        return Err(text.len() - n);
    }
    let (_, rest) = text.split_at(26);
    match length_field(rest) {
        Ok(number) => Ok(number),
        Err(left) => Err(left),
    }
}
