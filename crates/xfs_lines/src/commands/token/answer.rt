//! The answers of the command `token`.

ghost use Rattle.std.specs.Prelude.{◌≡◌, ◌++◌, codes, decimal, IfOk, OnOk};
ghost use Rattle.hex.specs.Hex.{encode_lower};
ghost use Rattle.xfs_hmac.specs.Hmac.{hmac};
ghost use Rattle.xfs_token.specs.Amounts.{amounts_of};
ghost use Rattle.xfs_script.specs.Answered.{IsAnswerText};
ghost use Rattle.xfs_lines.specs.Token.Verbs.{AreTokenAnswer, IsFaultText, TellsMade, TellsRead, thousandths_text, amounts_text, joined_amounts, token_text};
ghost use Rattle.xfs_lines.specs.Token.Verbs as answers;

use crate::output::text::{join_parts, with_line_feed};
use itoa::Buffer;
use std::alloc::{AllocError, Global};
use xfs_base::{Currency, Memory, Milli};
use xfs_guard::BootFault;
use xfs_hmac::mac;
use xfs_script::{Answerer, ScriptFault, TokenLine, Unanswered, read_token};
use xfs_token::{Amounts, Token, TokenFault, TokenKey, amounts, read};

/// The key under which tokens are read and made.
#[derive(Drop)]
pub struct Tokens {
    pub alloc: Global,
    pub key: TokenKey,
}

impl Answerer for Tokens {
    ghost use Rattle.std.specs.Prelude.{◌≡◌, ℕ, List};
    ghost use Rattle.std.proofs.Common.{refl, ◌∙◌};
    ghost use Rattle.xfs_lines.specs.Token.Verbs.{token_lines, is-line};

    type End = BootFault;

    ghost State = { List ℕ };

    ghost state = { λ t. t.key };

    ghost command = { token_lines };

    ghost Keeps = { λ old new. new ≡ old };

    fn answer(&mut self, line: &[u8]) -> Result<Vec<u8>, Unanswered<BootFault>> {
        let verb = match read_token(self.alloc, line) {
            Ok(verb) => verb,
            Err(ScriptFault::NotALine) => return Err(Unanswered::NotALine),
            Err(ScriptFault::Memory) => return Err(Unanswered::Memory),
        };
        match verb_text(self.alloc, &self.key, &verb) {
            Ok(text) => Ok(text),
            Err(_) => Err(Unanswered::Memory),
        }
    }

    ghost keeps_same = { λ t. refl };

    ghost keeps_then = { λ a b c first then. then ∙ first };

    ghost leaves_same = { λ key line. refl };

    ghost is_short = { λ line is. is.short };

    ghost is_line = { is-line };
}

// The lines that answer a verb, a line feed behind each.
fn verb_text(alloc: Global, key: &TokenKey, verb: &TokenLine) -> Result<Vec<u8>, Memory>
    ensures { IfOk result (λ text. IsAnswerText (λ output next. AreTokenAnswer key.now verb.now output) text.items key.now) }
{
    match verb {
        TokenLine::Skip => Ok(Vec::new(alloc)),
        TokenLine::Read(bytes) => Ok(with_line_feed(read_answer(alloc, key, bytes.list())?)?),
        TokenLine::Make { nonce, amounts } => {
            Ok(with_line_feed(make_answer(alloc, key, nonce.list(), amounts)?)?)
        }
        TokenLine::Mac { key, message } => {
            Ok(with_line_feed(mac_answer(alloc, key.list(), message.list())?)?)
        }
    }
}

fn read_answer(alloc: Global, key: &TokenKey, bytes: &[u8]) -> Result<Vec<u8>, Memory>
    ensures { IfOk result (λ v. TellsRead key.now bytes.now v.items) }
{
    match read(alloc, bytes) {
        Ok(token) => Ok(token_answer(alloc, &token, key.is_genuine(bytes, &token))?),
        Err(fault) => fault_answer(alloc, fault),
    }
}

// The nonce and the amounts of a token, and whether it is genuine.
fn token_answer(alloc: Global, token: &Token, is_genuine: bool) -> Result<Vec<u8>, AllocError>
    ensures { IfOk result (λ v. v.items ≡ token_text token.now is_genuine) }
{
    let mut text = Vec::new(alloc);
    text.extend_from_slice(b"ok nonce=")?;
    text.extend_from_slice(token.nonce())?;
    text.extend_from_slice(b" amounts=")?;
    push_amounts_of(&mut text, token)?;
    text.extend_from_slice(b" genuine=")?;
    text.extend_from_slice(yes_or_no(is_genuine))?;
    Ok(text)
}

fn yes_or_no(is_so: bool) -> &'static [u8]
    ensures { result.now ≡ answers.yes_or_no is_so }
{
    if is_so { b"yes" } else { b"no" }
}

// The amounts of a token, or that it has none.
fn push_amounts_of(text: &mut Vec<u8>, token: &Token) -> Result<(), AllocError>
    ensures { OnOk result (text.new.items ≡ text.old.items ++ amounts_text (amounts_of token.now)) }
{
    match amounts(token) {
        Some(amounts) => push_amounts(text, &amounts),
        None => text.extend_from_slice(b"none"),
    }
}

fn push_amounts(text: &mut Vec<u8>, amounts: &Amounts) -> Result<(), AllocError>
    ensures { OnOk result (text.new.items ≡ text.old.items ++ joined_amounts amounts.now) }
{
    let count = amounts.len();
    let (currency, amount) = amounts.at(0);
    push_amount(text, currency, amount)?;
    'amounts: for i in 1..count {
        let (currency, amount) = amounts.at(i);
        text.extend_from_slice(b",")?;
        push_amount(text, currency, amount)?;
    }
    Ok(())
}

fn push_amount(text: &mut Vec<u8>, currency: Currency, amount: Milli) -> Result<(), AllocError>
    ensures { OnOk result (text.new.items ≡ text.old.items ++ thousandths_text (currency, amount.0)) }
{
    text.extend_from_slice(&currency.letters())?;
    text.extend_from_slice(b":")?;
    text.extend_from_slice(Buffer::new().format(amount.0).as_bytes())?;
    Ok(())
}

fn fault_answer(alloc: Global, fault: TokenFault) -> Result<Vec<u8>, Memory>
    ensures { IfOk result (λ v. IsFaultText fault v.items) }
{
    match fault {
        TokenFault::TooLong => Ok(Vec::from_slice(alloc, b"fault TooLong")?),
        TokenFault::KeyNoValue { at } => Ok(fault_at(alloc, b"fault KeyNoValue ", at)?),
        TokenFault::Format { at } => Ok(fault_at(alloc, b"fault Format ", at)?),
        TokenFault::Memory => Err(Memory),
    }
}

fn fault_at(alloc: Global, words: &[u8], at: u32) -> Result<Vec<u8>, AllocError>
    ensures { IfOk result (λ v. v.items ≡ words.now ++ decimal at) }
{
    let mut text = Vec::from_slice(alloc, words)?;
    text.extend_from_slice(Buffer::new().format(at).as_bytes())?;
    Ok(text)
}

fn make_answer(
    alloc: Global,
    key: &TokenKey,
    nonce: &[u8],
    amounts: &Amounts,
) -> Result<Vec<u8>, Memory>
    ensures { IfOk result (λ v. TellsMade key.now nonce.now amounts.now v.items) }
{
    // A line's nonce is of the grammar, so what remains is want of memory.
    let Ok(token) = key.make(alloc, nonce, amounts) else {
        return Err(Memory);
    };
    join_parts(alloc, b"token ", &token)
}

fn mac_answer(alloc: Global, key: &[u8], message: &[u8]) -> Result<Vec<u8>, Memory>
    ensures { IfOk result (λ v. v.items ≡ codes "mac " ++ encode_lower (hmac key.now message.now)) }
{
    let digits = hex::encode(alloc, mac(key, message))?;
    join_parts(alloc, b"mac ", digits.as_bytes())
}
