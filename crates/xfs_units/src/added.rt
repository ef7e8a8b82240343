ghost use Rattle.std.specs.Prelude.{◌≡◌, ℕ, ◌+◌, ◌<◌, ◌≤◌, ◌≢◌, ◌↔◌, Err, Some, IfOk, IsTrue, IfSome, IfNone, option_and_then, unwrap_or};
ghost use Rattle.serde_json.specs.Find.{get};
ghost use Rattle.serde_json.specs.View.{view, members_view};
ghost use Rattle.xfs_base.specs.Counts.{at};
ghost use Rattle.xfs_units.specs.Payloads.{unit_name, added_of, AllAdded, AreAdded, IsUnitName, AreUnits, storage_of, added_to};
ghost use Rattle.xfs_units.specs.declared.added.AddedFault.TheVariants as AddedFault;

use crate::payloads::name_of;
use serde_json::Value;
use xfs_base::Counts;
use xfs_json::{Map, whole};

/// The notes to add to each unit.
pub type Added = Counts;

/// Why a payload of Storage.SetStorage isn't taken.
#[derive(Clone, Copy, Debug, PartialEq, Eq)]
pub enum AddedFault {
    /// It has no object `storage` of one or more members, or one of them isn't an object with
    /// `added`, a whole number from 1 to 10,000.
    Shape,
    /// The shape is right, and a member's name isn't `unit1` to `unit8`.
    Unit,
}

/// Reads the payload of Storage.SetStorage (XFS4IoT, CEN CWA). Its shape is looked at as a whole
/// before any name. It takes no memory.
pub fn read_added(payload: &Value) -> Result<Added, AddedFault>
    ensures shape { result ≡ Err AddedFault.Shape → ¬ AreAdded (storage_of (view payload.now)) }
    ensures unit { result ≡ Err AddedFault.Unit → AreAdded (storage_of (view payload.now)) × ¬ IfSome (storage_of (view payload.now)) AreUnits }
    ensures shaped { IfOk result (λ _. AreAdded (storage_of (view payload.now))) }
    ensures named { IfOk result (λ _. IfSome (storage_of (view payload.now)) AreUnits) }
    ensures counts { IfOk result (λ added. (u : ℕ) → u < 8 → at added u ≡ added_to (u + 1) (view payload.now)) }
{
    let Some(storage) = payload.get("storage") else {
        return Err(AddedFault::Shape);
    };
    let Some(units) = storage.as_object() else {
        return Err(AddedFault::Shape);
    };
    if !are_added(units) {
        return Err(AddedFault::Shape);
    }
    if !are_units(units) {
        return Err(AddedFault::Unit);
    }
    Ok(counts_of(storage))
}

fn are_added(units: &Map) -> bool
    ensures { IsTrue result ↔ AreAdded (Some (members_view units.now.entries)) }
{
    !units.is_empty() && are_all_added(units)
}

fn are_all_added(units: &Map) -> bool
    ensures { IsTrue result ↔ AllAdded (members_view units.now.entries) }
{
    for (_, unit) in units {
        if notes_of(unit).is_none() {
            return false;
        }
    }
    true
}

fn are_units(units: &Map) -> bool
    ensures { IsTrue result ↔ AreUnits (members_view units.now.entries) }
{
    for (name, _) in units {
        if unit_of(name).is_none() {
            return false;
        }
    }
    true
}

fn notes_of(unit: &Value) -> Option<u32>
    ensures { result ≡ added_of (view unit.now) }
{
    match whole(unit, "added", 1, 10_000) {
        Ok(Some(added)) => Some(added as u32),
        _ => None,
    }
}

/// The unit of a name, which counts from 1. None exactly where the name isn't `unit1` to `unit8`.
pub fn unit_of(name: &str) -> Option<u8>
    ensures found { IfSome result (λ unit. (1 ≤ unit) × (unit ≤ 8) × (name.now ≡ unit_name unit)) }
    ensures none { IfNone result ((unit : ℕ) → 1 ≤ unit → unit ≤ 8 → name.now ≢ unit_name unit) }
{
    match name {
        "unit1" => Some(1),
        "unit2" => Some(2),
        "unit3" => Some(3),
        "unit4" => Some(4),
        "unit5" => Some(5),
        "unit6" => Some(6),
        "unit7" => Some(7),
        "unit8" => Some(8),
        _ => None,
    }
}

fn counts_of(storage: &Value) -> Counts
    ensures { (u : ℕ) → u < 8 → at result u ≡ unwrap_or (option_and_then added_of (get (unit_name (u + 1)) (view storage.now))) 0 }
{
    let mut counts = [0u32; 8];
    for i in 0..8 {
        if let Some(unit) = storage.get(name_of(i as u8 + 1)) {
            counts[i] = notes_of(unit).unwrap_or(0);
        }
    }
    Counts(counts)
}
