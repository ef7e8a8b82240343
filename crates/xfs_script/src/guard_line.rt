ghost use Rattle.std.specs.Prelude.{◌≡◌, List, ℕ, IfSome, IfNone, IfOk, IsTrue, ◌↔◌, Err};
ghost use Rattle.xfs_script.specs.Guard.{IsGuardLine, IsWordLine, IsMint};
ghost use Rattle.xfs_script.specs.declared.guard_line.GuardLine.{GuardLine};
ghost use Rattle.xfs_script.specs.declared.guard_line.ScriptFault.TheVariants as ScriptFault;

use crate::amounts::read_amounts;
use crate::dispense::{read_dispense, read_given};
use crate::fill::read_fill;
use crate::word::{field_of, is_skipped, is_word};
use std::alloc::Global;
use xfs_base::{Bytes, Counts};
use xfs_token::Amounts;

/// A line of the command `guard`: its verb with its fields.
#[derive(Drop)]
pub enum GuardLine {
    /// An empty line or a comment. It has no answer.
    Skip,
    Issue,
    Clear,
    Mint(Amounts),
    Dispense { token: Given, counts: Counts },
    /// So many notes, from 1 to 10,000, are put into a unit from 1 to 8.
    Fill { unit: u8, count: u32 },
    Present,
    Reject,
    Retract,
    Take,
    Restart,
    Show,
}

/// The token of a `dispense` line.
#[derive(Drop)]
pub enum Given {
    /// `@`, the last token that was minted.
    Last,
    /// The token's text. It need not be a token.
    Text(Bytes),
}

/// Why a line isn't read.
#[derive(Clone, Copy, Debug, PartialEq, Eq)]
pub enum ScriptFault {
    NotALine,
    Memory,
}

/// Reads a line of `guard`, given without its end. The allocator is for the bytes that a line holds.
pub fn read_guard(alloc: Global, text: &[u8]) -> Result<GuardLine, ScriptFault>
    ensures ok { IfOk result (IsGuardLine text.now) }
    ensures not_a_line { result ≡ Err ScriptFault.NotALine → (line : GuardLine) → ¬ IsGuardLine text.now line }
{
    if let Some(line) = word_of(text) {
        return Ok(line);
    }
    if let Some(amounts) = read_mint(text) {
        return Ok(GuardLine::Mint(amounts));
    }
    if let Some((unit, count)) = read_fill(text) {
        return Ok(GuardLine::Fill { unit, count });
    }
    let Some((field, counts)) = read_dispense(text) else {
        return Err(ScriptFault::NotALine);
    };
    match read_given(alloc, field) {
        Ok(token) => Ok(GuardLine::Dispense { token, counts }),
        Err(_) => Err(ScriptFault::Memory),
    }
}

// The lines that have no fields.
fn word_of(text: &[u8]) -> Option<GuardLine>
    ensures found { IfSome result (IsGuardLine text.now) }
    ensures none { IfNone result ((line : GuardLine) → ¬ IsWordLine text.now line) }
{
    if is_skipped(text) {
        return Some(GuardLine::Skip);
    }
    if is_word(text, b"issue") {
        return Some(GuardLine::Issue);
    }
    if is_word(text, b"clear") {
        return Some(GuardLine::Clear);
    }
    if is_word(text, b"present") {
        return Some(GuardLine::Present);
    }
    if is_word(text, b"reject") {
        return Some(GuardLine::Reject);
    }
    if is_word(text, b"retract") {
        return Some(GuardLine::Retract);
    }
    if is_word(text, b"take") {
        return Some(GuardLine::Take);
    }
    if is_word(text, b"restart") {
        return Some(GuardLine::Restart);
    }
    if is_word(text, b"show") {
        return Some(GuardLine::Show);
    }
    None
}

pub(crate) fn read_mint(text: &[u8]) -> Option<Amounts>
    ensures found { IfSome result (IsMint text.now) }
    ensures none { IfNone result ((amounts : List (List ℕ × ℕ)) → ¬ IsMint text.now amounts) }
{
    let field = field_of(text, b"mint ")?;
    read_amounts(field)
}
