ghost use Rattle.std.specs.Prelude.{◌≡◌, ◌<◌, ◌≤◌, ◌+◌, ℕ, List, [], ◌↔◌, IsTrue, IfOk, IfErr, length, map, codes};
ghost use Rattle.hex.specs.Hex.{encode_upper};
ghost use Rattle.xfs_token.specs.Fault.{IsFault, LacksValue};
ghost use Rattle.xfs_token.specs.declared.faults.TokenFault.TheVariants.{Format};
ghost use Rattle.xfs_token.specs.Pairs.{pair_of};
ghost use Rattle.xfs_token.specs.Reading.{EndsEqual, IsFront, IsKeyThen, IsLooseAs, IsNonceThen, IsStopped, IsStuck, IsTailOf, IsValueThen, Loose, MacEnd, NonceThen, Tail, ValueThen};
ghost use Rattle.xfs_token.specs.Token.{IsMac, Spells, pairs_text};

use crate::faults::Stop;
use crate::pair::Pair;
use crate::reading::{
    begins, common_len, format_field, is_mac_key, key_len, mac_of, nonce_len, value_len,
};
use crate::{Token, TokenFault};
use std::alloc::Global;

/// The token that a text spells, or why it spells none.
pub fn read(alloc: Global, bytes: &[u8]) -> Result<Token, TokenFault>
    ensures ok { IfOk result (λ t. Spells t bytes.now) }
    ensures fault { IfErr result (λ e. IsFault bytes.now e) }
{
    if bytes.len() > 1024 {
        return Err(TokenFault::TooLong);
    }
    match loose(alloc, bytes) {
        Ok((token, number)) => {
            if number != bytes.len() {
                return Err(length_fault(&token));
            }
            Ok(token)
        }
        Err(Stop::Left(left)) => Err(fault_at(bytes, left)),
        Err(Stop::Memory) => Err(TokenFault::Memory),
    }
}

// The four digits of the length begin 33 bytes behind the nonce's first.
fn length_fault(token: &Token) -> TokenFault
    requires { length token.now.nonce ≤ 128 }
    ensures { result ≡ Format (length token.now.nonce + 33) }
{
    TokenFault::Format {
        at: token.nonce().len() as u32 + 33,
    }
}

// The fault of a text that is stuck with so many bytes left.
fn fault_at(bytes: &[u8], left: usize) -> TokenFault
    requires short { length bytes.now ≤ 1024 }
    requires stuck { IsStuck Loose bytes.now left }
    ensures { IsFault bytes.now result }
{
    let at = bytes.len() - left;
    if lacks_value(bytes, at) {
        return TokenFault::KeyNoValue { at: at as u32 };
    }
    TokenFault::Format { at: at as u32 }
}

fn lacks_value(bytes: &[u8], at: usize) -> bool
    requires { at ≤ length bytes.now }
    ensures { IsTrue result ↔ LacksValue bytes.now at }
{
    let (front, rest) = bytes.split_at(at);
    ends(front) && (rest.is_empty() || begins(rest, b','))
}

fn ends(front: &[u8]) -> bool
    ensures { IsTrue result ↔ EndsEqual front.now }
{
    match front {
        [] => false,
        [.., last] => *last == b'=',
    }
}

// The token whose form a text has, and the number in its length field.
fn loose(alloc: Global, bytes: &[u8]) -> Result<(Token, usize), Stop>
    requires { length bytes.now ≤ 1024 }
    ensures ok { IfOk result (λ r. IsLooseAs bytes.now r.0 r.1) }
    ensures err { IfErr result (λ s. IsStopped Loose bytes.now s) }
{
    let (nonce, number, rest) = front(bytes).map_err(Stop::Left)?;
    let token = Token::begun(alloc, nonce)?;
    let token = tail(token, rest)?;
    Ok((token, number))
}

// A token's nonce, the number in its length field, and what stands behind it.
fn front(bytes: &[u8]) -> Result<(&[u8], usize, &[u8]), usize>
    ensures ok { IfOk result (λ r. IsFront bytes.now r.0.now r.1 r.2.now) }
    ensures err { IfErr result (λ left. IsStuck Loose bytes.now left) }
{
    let n = common_len(bytes, b"NONCE=");
    if n < 6 {
        return Err(bytes.len() - n);
    }
    let (_, text) = bytes.split_at(6);
    let (nonce, rest) = nonce_at(text)?;
    let number = format_field(rest)?;
    Ok((nonce, number, rest.split_at(31).1))
}

// The nonce, and what stands behind its comma.
fn nonce_at(text: &[u8]) -> Result<(&[u8], &[u8]), usize>
    ensures ok { IfOk result (λ r. IsNonceThen text.now r.0.now r.1.now) }
    ensures err { IfErr result (λ left. IsStuck NonceThen text.now left) }
{
    let n = nonce_len(text)?;
    let (nonce, _) = text.split_at(n);
    let (_, rest) = text.split_at(n + 1);
    Ok((nonce, rest))
}

// A key, and what stands behind its equals sign.
fn key_at<'a>(text: &'a [u8], pairs: &[Pair]) -> Result<(&'a [u8], &'a [u8]), Stop>
    requires { length (pairs_text (map pair_of pairs.now)) ≤ 1024 }
    ensures ok { IfOk result (λ r. IsKeyThen (map pair_of pairs.now) text.now r.0.now r.1.now) }
    ensures err { IfErr result (λ s. IsStopped (Tail (map pair_of pairs.now)) text.now s) }
{
    let n = key_len(text, pairs).map_err(Stop::Left)?;
    let (key, _) = text.split_at(n);
    let (_, rest) = text.split_at(n + 1);
    Ok((key, rest))
}

// A value, and what stands behind its comma.
fn value_at(text: &[u8]) -> Result<(&[u8], &[u8]), Stop>
    ensures ok { IfOk result (λ r. IsValueThen text.now r.0.now r.1.now) }
    ensures err { IfErr result (λ s. (earlier : List (List ℕ × List ℕ)) (key : List ℕ) → IsStopped (ValueThen earlier key) text.now s) }
{
    let n = value_len(text).map_err(Stop::Left)?;
    let (value, _) = text.split_at(n);
    let (_, rest) = text.split_at(n + 1);
    Ok((value, rest))
}

fn mac_at(text: &[u8]) -> Result<[u8; 32], Stop>
    ensures ok { IfOk result (λ mac. IsMac mac × (text.now ≡ encode_upper mac)) }
    ensures err { IfErr result (λ s. IsStopped MacEnd text.now s) }
{
    mac_of(text).map_err(Stop::Left)
}

// The token with the pairs and the HMAC of a text.
fn tail(mut token: Token, text: &[u8]) -> Result<Token, Stop>
    requires none { token.pairs ≡ [] }
    requires short { length text.now ≤ 1024 }
    ensures ok { IfOk result (λ t. IsTailOf text.now token.nonce t) }
    ensures err { IfErr result (λ s. IsStopped (Tail []) text.now s) }
{
    let mut rest = text;
    loop {
        let (key, behind) = key_at(rest, token.pairs())?;
        if is_mac_key(key) {
            token.set_mac(mac_at(behind)?);
            return Ok(token);
        }
        let (value, after) = value_at(behind)?;
        token.push(key, value)?;
        rest = after;
    }
}
