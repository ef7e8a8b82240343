ghost use Rattle.std.specs.Prelude.{◌≡◌, ◌<◌, [], ◌∷◌, ◌++◌, length, IfOk, OnOk};
ghost use Rattle.xfs_script.specs.Counts.{unit_text};
ghost use Rattle.xfs_script.specs.Counts as answers;

use itoa::Buffer;
use std::alloc::{AllocError, Global};
use xfs_base::{Counts, Memory};

// The counts of three units, or of two that are high, are no longer.
const USUAL_LENGTH: usize = 32;

/// The text of counts in an answer: `unitN:count` of the units whose count isn't 0, joined by
/// commas, N rising, or `none`.
pub fn counts_text(alloc: Global, counts: &Counts) -> Result<Vec<u8>, Memory>
    ensures { IfOk result (λ text. text.items ≡ answers.counts_text counts.now) }
{
    let mut text = units_text(alloc, &counts.0)?;
    if text.is_empty() {
        text.extend_from_slice(b"none")?;
    }
    Ok(text)
}

// The units whose count isn't 0.
fn units_text(alloc: Global, counts: &[u32]) -> Result<Vec<u8>, AllocError>
    requires { length counts.now < 256 }
    ensures { IfOk result (λ text. text.items ≡ answers.joined_units (answers.filled_units 1 counts.now)) }
{
    let mut text = Vec::with_capacity(alloc, USUAL_LENGTH)?;
    let mut unit = 0u8;
    for count in counts {
        unit += 1;
        if *count > 0 {
            push_unit(&mut text, unit, *count)?;
        }
    }
    Ok(text)
}

// Adds a unit's text behind those before it.
fn push_unit(text: &mut Vec<u8>, unit: u8, count: u32) -> Result<(), AllocError>
    ensures first { text.old.items ≡ [] → OnOk result (text.new.items ≡ unit_text (unit, count)) }
    ensures further { 0 < length text.old.items → OnOk result (text.new.items ≡ text.old.items ++ 44 ∷ unit_text (unit, count)) }
{
    if !text.is_empty() {
        text.push(b',')?;
    }
    text.extend_from_slice(b"unit")?;
    text.extend_from_slice(Buffer::new().format(unit).as_bytes())?;
    text.push(b':')?;
    text.extend_from_slice(Buffer::new().format(count).as_bytes())?;
    Ok(())
}
