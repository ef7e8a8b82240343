//! Whether texts and frames were a conversation.

ghost use Rattle.std.specs.Prelude.{◌↔◌, IsTrue, IfOk};
ghost use Rattle.xfs_audit.specs.Fitting.{Fits};

use crate::rest::Rest;
use std::alloc::Global;
use xfs_base::{Bytes, Memory};

/// Whether the frames are what one connection may hear, from its join on, that posts these texts, where commands with
/// these request ids are pending at the end. Nothing is asked of an acknowledge but its status, so that commands with one id
/// and name may be pending together; then some choice of which of them each completion ends is to fit. Frames are read
/// from the last to the first. While no two pending commands have one id, as every service sees to, the time is that of
/// reading them; where many have, all ways that lead on are kept side by side, and memory may run out over them.
pub fn converse(
    alloc: Global,
    texts: &[Bytes],
    frames: &[Bytes],
    pending: &[u64],
) -> Result<bool, Memory>
    ensures { IfOk result (λ kept. IsTrue kept ↔ Fits pending.now texts.now frames.now) }
{
    let mut rest = Rest::end(alloc, texts, pending)?;
    for i in (0..frames.len()).rev() {
        rest.read(alloc, texts, pending, frames[i].list())?;
    }
    Ok(rest.is_whole())
}
