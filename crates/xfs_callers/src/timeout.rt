//! A caller of xfs_json.

ghost use Rattle.std.specs.Prelude.{◌≡◌, ◌≤◌, IfOk, IfSome, option_and_then};
ghost use Rattle.xfs_callers.specs.Timeout.{timeout_of};
ghost use Rattle.xfs_json.specs.Reading.{reading};

use std::alloc::Global;
use xfs_base::Memory;
use xfs_json::{JsonFault, parse, whole};

/// The member `timeout` of a text's object, in milliseconds: from 0 to an hour. None where it has no such number.
pub fn timeout_in(alloc: Global, text: &[u8]) -> Result<Option<u64>, Memory>
    ensures timeout { IfOk result (λ found. found ≡ option_and_then timeout_of (reading text.now)) }
    ensures bounds { IfOk result (λ found. IfSome found (λ millis. millis ≤ 3600000)) }
{
    match parse(alloc, text) {
        Ok(value) => match whole(&value, "timeout", 0, 3_600_000) {
            Ok(found) => Ok(found),
            Err(_) => Ok(None),
        },
        Err(JsonFault::NotJson) => Ok(None),
        Err(JsonFault::Memory) => Err(Memory),
    }
}
