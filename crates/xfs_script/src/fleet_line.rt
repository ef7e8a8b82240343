ghost use Rattle.std.specs.Prelude.{◌≡◌, IfOk, Err};
ghost use Rattle.xfs_script.specs.FleetLines.{IsFleetLine};
ghost use Rattle.xfs_script.specs.declared.fleet_line.FleetLine.{FleetLine};
ghost use Rattle.xfs_script.specs.declared.guard_line.ScriptFault.TheVariants as ScriptFault;

use crate::guard_line::ScriptFault;
use crate::replay_line::{ReplayLine, read_replay};
use crate::word::{field_of, is_skipped};
use std::alloc::Global;

/// A line of the command `fleet`: which of the two machines does which line of `replay`.
#[derive(Drop)]
pub enum FleetLine {
    /// An empty line or a comment, which is neither machine's. It has no answer.
    Skip,
    /// `a `, and a line that the first machine does. It may itself be one that is skipped.
    A(ReplayLine),
    /// `b `, and a line that the second does.
    B(ReplayLine),
}

/// Reads a line of `fleet`, given without its end. The allocator is for the bytes that a line holds.
pub fn read_fleet(alloc: Global, text: &[u8]) -> Result<FleetLine, ScriptFault>
    ensures ok { IfOk result (IsFleetLine text.now) }
    ensures not_a_line { result ≡ Err ScriptFault.NotALine → (line : FleetLine) → ¬ IsFleetLine text.now line }
{
    if is_skipped(text) {
        return Ok(FleetLine::Skip);
    }
    if let Some(behind) = field_of(text, b"a ") {
        return Ok(FleetLine::A(read_replay(alloc, behind)?));
    }
    let Some(behind) = field_of(text, b"b ") else {
        return Err(ScriptFault::NotALine);
    };
    Ok(FleetLine::B(read_replay(alloc, behind)?))
}
