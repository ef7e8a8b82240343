//! Links in memory, and the frames that they were sent.

ghost use Rattle.std.specs.Prelude.{IfOk};
ghost use Rattle.xfs_server.specs.Links.{IsFresh};

use crate::words::cut_at;
use std::alloc::Global;
use std::test::Fail;
use xfs_base::Bytes;
use xfs_server::MemLink;

const LONG: usize = 1_000_000;

/// A link to which the texts of these lines come, where this take and this give fail, counted from 1.
pub fn link_of(
    alloc: Global,
    lines: &str,
    closes: bool,
    take: u64,
    give: u64,
) -> Result<MemLink, Fail>
    ensures fresh { IfOk result (λ link. IsFresh link.log) }
{
    let texts = texts_of(alloc, lines)?;
    let takes = Vec::from_slice(alloc, &[take])?;
    let gives = Vec::from_slice(alloc, &[give])?;
    Ok(MemLink::new(alloc, texts, closes, takes, gives))
}

// The texts behind `>`, and those behind `>>` with blanks up to a million bytes.
fn texts_of(alloc: Global, lines: &str) -> Result<Vec<Bytes>, Fail> {
    let mut texts = Vec::new(alloc);
    for line in lines.lines() {
        if let Some(len) = length_of(line) {
            texts.push(text_of(alloc, line, len)?)?;
        }
    }
    Ok(texts)
}

// How many bytes the text of a line has at least. None where it has no text.
fn length_of(line: &str) -> Option<usize> {
    match cut_at(line, " ").0 {
        ">" => Some(0),
        ">>" => Some(LONG),
        _ => None,
    }
}

fn text_of(alloc: Global, line: &str, len: usize) -> Result<Bytes, Fail> {
    let mut text = Vec::from_slice(alloc, cut_at(line, " ").1.as_bytes())?;
    if text.len() < len {
        text.resize(len, b' ')?;
    }
    Ok(Bytes::new(text))
}

/// Tells frames, each on a line.
pub fn tell_frames(told: &mut String, frames: &[Bytes]) -> Result<(), Fail> {
    for frame in frames {
        told.push_str(str::from_utf8(frame.list()).unwrap_or("?"))?;
        told.push_str("\n")?;
    }
    Ok(())
}
