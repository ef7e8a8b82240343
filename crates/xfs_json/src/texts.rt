ghost use Rattle.std.specs.Prelude.{◌≡◌, ◌≤◌, Some, None, Err, false, IfOk};
ghost use Rattle.serde_json.specs.Data.{depth};
ghost use Rattle.serde_json.specs.Read.{max_depth};
ghost use Rattle.serde_json.specs.View.{view};
ghost use Rattle.serde_json.specs.Written.{has_float, compact_text};
ghost use Rattle.xfs_json.specs.declared.texts.JsonFault.TheVariants as JsonFault;
ghost use Rattle.xfs_json.specs.Reading.{reading};

use serde_json::Value;
use std::alloc::Global;
use xfs_base::Memory;

/// Why bytes were not read: they have no reading, or memory ran out.
#[derive(Clone, Copy, Debug, PartialEq, Eq)]
pub enum JsonFault {
    NotJson,
    Memory,
}

/// The value of a JSON text (RFC 8259). Of a member that stands twice the last value counts.
/// NotJson comes exactly where the bytes aren't UTF-8 or aren't JSON, nest more than 127 deep, or
/// have a numeral too large for a finite double.
pub fn parse(alloc: Global, bytes: &[u8]) -> Result<Value, JsonFault>
    ensures ok { IfOk result (λ v. reading bytes.now ≡ Some (view v)) }
    ensures depth { IfOk result (λ v. depth (view v) ≤ max_depth) }
    ensures not_json { result ≡ Err JsonFault.NotJson → reading bytes.now ≡ None }
{
    match Value::from_slice(alloc, bytes) {
        Ok(value) => Ok(value),
        Err(error) if error.is_memory() => Err(JsonFault::Memory),
        Err(_) => Err(JsonFault::NotJson),
    }
}

/// The compact text of a value: no blanks, and an object's members in the order of their names'
/// bytes.
pub fn text(alloc: Global, value: &Value) -> Result<Vec<u8>, Memory>
    requires no_float { has_float (view value.now) ≡ false }
    requires depth { depth (view value.now) ≤ max_depth }
    ensures text { IfOk result (λ t. t.items ≡ compact_text (view value.now)) }
    ensures reads_back { IfOk result (λ t. reading t.items ≡ Some (view value.now)) }
{
    match value.to_vec(alloc) {
        Ok(bytes) => Ok(bytes),
        Err(_) => Err(Memory),
    }
}
