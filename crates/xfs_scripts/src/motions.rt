//! What a mechanism's list has, a line an entry.

use std::alloc::{AllocError, Global};
use xfs_base::{Counts, Kind};
use xfs_mech::Motion;

/// The entries of a list, each as a line.
pub fn motions_text(alloc: Global, motions: &[Motion]) -> Result<String, AllocError> {
    let mut text = String::new(alloc);
    for motion in motions {
        text.push_str(line_of(alloc, motion)?.as_str())?;
        text.push_str("\n")?;
    }
    Ok(text)
}

fn line_of(alloc: Global, motion: &Motion) -> Result<String, AllocError> {
    match motion {
        Motion::Moved {
            number,
            kind,
            moved,
            diverted,
        } => {
            let kind = word_of(*kind);
            let moved = counts_text(alloc, moved)?;
            let diverted = counts_text(alloc, diverted)?;
            format!(in alloc; "{number} {kind} {moved} diverted {diverted}")
        }
        Motion::Taken { counts } => {
            let counts = counts_text(alloc, counts)?;
            format!(in alloc; "taken {counts}")
        }
        Motion::Loaded { unit, count } => format!(in alloc; "loaded unit{unit}:{count}"),
    }
}

fn word_of(kind: Kind) -> &'static str {
    match kind {
        Kind::Stack => "stack",
        Kind::Present => "present",
        Kind::Reject => "reject",
        Kind::Retract => "retract",
    }
}

// The notes by their units, as the commands have them.
fn counts_text(alloc: Global, counts: &Counts) -> Result<String, AllocError> {
    let mut text = String::new(alloc);
    for unit in 0..8usize {
        let count = counts.0[unit];
        if count > 0 {
            let comma = if text.is_empty() { "" } else { "," };
            let number = unit + 1;
            let part = format!(in alloc; "{comma}unit{number}:{count}")?;
            text.push_str(part.as_str())?;
        }
    }
    if text.is_empty() {
        text.push_str("none")?;
    }
    Ok(text)
}
