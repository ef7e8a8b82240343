ghost use Rattle.std.specs.Prelude.{IfOk};
ghost use Rattle.xfs_sides.specs.Sides.{MarksEach};

use memchr::memchr;
use std::alloc::Global;
use xfs_base::Memory;

/// The lines of an answer, each with a side's letter and a space in front.
pub fn mark_lines(alloc: Global, letter: u8, text: &[u8]) -> Result<Vec<u8>, Memory>
    ensures { IfOk result (λ marked. MarksEach letter text.now marked.items) }
{
    let mut marked = Vec::with_capacity(alloc, text.len())?;
    let mut rest = text;
    while let Some(end) = memchr(b'\n', rest) {
        marked.extend_from_slice(&[letter, b' '])?;
        marked.extend_from_slice(&rest[..end + 1])?;
        rest = &rest[end + 1..];
    }
    Ok(marked)
}
