//! Texts of answers.

ghost use Rattle.std.specs.Prelude.{◌≡◌, ◌<◌, ◌≤◌, [], ◌∷◌, ◌++◌, IfOk, OnOk};
ghost use Rattle.xfs_script.specs.Answered.{lines_text};
ghost use Rattle.xfs_lines.specs.Guard.Texts.{outcome_text, show_lines, unit_line, unit_counts, count_text};

use itoa::Buffer;
use std::alloc::{AllocError, Global};
use xfs_base::{Memory, Places};
use xfs_mech::Outcome;
use xfs_script::counts_text;

/// Two parts in one text, with room for its line feed.
pub fn join_parts(alloc: Global, first: &[u8], second: &[u8]) -> Result<Vec<u8>, Memory>
    ensures { IfOk result (λ text. text.items ≡ first.now ++ second.now) }
{
    let mut text = Vec::with_capacity(
        alloc,
        first.len().saturating_add(second.len()).saturating_add(1),
    )?;
    text.extend_from_slice(first)?;
    text.extend_from_slice(second)?;
    Ok(text)
}

/// What the mechanism did by this verb, and whether it failed.
pub fn outcome_text(alloc: Global, verb: &[u8], outcome: &Outcome) -> Result<Vec<u8>, Memory>
    ensures { IfOk result (λ text. text.items ≡ outcome_text verb.now outcome.now) }
{
    let counts = counts_text(alloc, &outcome.moved)?;
    let mut text = Vec::with_capacity(
        alloc,
        counts.len().saturating_add(verb.len()).saturating_add(8),
    )?;
    if outcome.failed {
        text.extend_from_slice(b"fault ")?;
    }
    text.extend_from_slice(verb)?;
    text.push(b' ')?;
    text.extend_from_slice(&counts)?;
    Ok(text)
}

/// The line that answers, with its line feed.
pub fn with_line_feed(mut line: Vec<u8>) -> Result<Vec<u8>, Memory>
    ensures { IfOk result (λ text. text.items ≡ lines_text (line.items ∷ [])) }
{
    line.push(b'\n')?;
    Ok(line)
}

/// A line of two parts, and its line feed.
pub fn line(alloc: Global, first: &[u8], second: &[u8]) -> Result<Vec<u8>, Memory>
    ensures { IfOk result (λ text. text.items ≡ lines_text ((first.now ++ second.now) ∷ [])) }
{
    with_line_feed(join_parts(alloc, first, second)?)
}

/// The six places of each unit, a line a unit.
pub fn show_text(alloc: Global, units: u8, places: &Places) -> Result<Vec<u8>, Memory>
    requires { units ≤ 8 }
    ensures { IfOk result (λ text. text.items ≡ lines_text (show_lines units places.now)) }
{
    let mut text = Vec::new(alloc);
    for place in 0..units {
        push_unit(&mut text, place, places)?;
    }
    Ok(text)
}

// Adds the line of a unit, which counts from 0 here, and its line feed.
fn push_unit(text: &mut Vec<u8>, place: u8, places: &Places) -> Result<(), AllocError>
    requires { place < 8 }
    ensures { OnOk result (text.new.items ≡ text.old.items ++ unit_line places.now place ++ 10 ∷ []) }
{
    text.extend_from_slice(b"unit")?;
    text.extend_from_slice(Buffer::new().format(place + 1).as_bytes())?;
    push_counts(text, usize::from(place), places)?;
    text.push(b'\n')?;
    Ok(())
}

// Adds the six counts of a unit.
fn push_counts(text: &mut Vec<u8>, at: usize, places: &Places) -> Result<(), AllocError>
    requires { at < 8 }
    ensures { OnOk result (text.new.items ≡ text.old.items ++ unit_counts places.now at) }
{
    push_count(text, places.units.0[at])?;
    push_count(text, places.transport.0[at])?;
    push_count(text, places.outlet.0[at])?;
    push_count(text, places.taken.0[at])?;
    push_count(text, places.retracted.0[at])?;
    push_count(text, places.rejected.0[at])
}

// Adds a count behind a space.
fn push_count(text: &mut Vec<u8>, count: u32) -> Result<(), AllocError>
    ensures { OnOk result (text.new.items ≡ text.old.items ++ count_text count) }
{
    text.push(b' ')?;
    text.extend_from_slice(Buffer::new().format(count).as_bytes())
}
