ghost use Rattle.std.specs.Prelude.{◌≡◌, ◌≤◌};
ghost use Rattle.serde_json.specs.View.{view, members_view};
ghost use Rattle.xfs_dispenser.specs.Named.{are_counts, are_units, count_in, count_of, counts_by, named_counts, is_unit, storage_in, values_in};

use serde_json::Value;
use xfs_base::Counts;
use xfs_json::Map;
use xfs_units::{AddedFault, name_of, read_added, unit_of};

/// Counts of notes by the names of their units.
#[derive(Clone, Copy, Debug, PartialEq, Eq)]
pub enum Named {
    /// What each unit's name stands with, and 0 for a unit that isn't named.
    These(Counts),
    /// A name isn't `unit1` to `unit8`.
    OtherName,
}

// The counts of a denomination's `values`, an object of whole numbers from 0 to 1,000,000 that may
// be absent or null. None where it has another shape.
pub(crate) fn read_values(denomination: &Value) -> Option<Named>
    ensures { result ≡ values_in (view denomination.now) }
{
    match denomination.get("values") {
        Some(values) if !values.is_null() => read_counts(values),
        _ => Some(Named::These(Counts([0; 8]))),
    }
}

fn read_counts(values: &Value) -> Option<Named>
    ensures { result ≡ named_counts (view values.now) }
{
    let members = values.as_object()?;
    if !are_counts(members) {
        return None;
    }
    if !are_units(members) {
        return Some(Named::OtherName);
    }
    Some(Named::These(counts_in(values)))
}

fn are_counts(members: &Map) -> bool
    ensures { result ≡ are_counts (members_view members.now.entries) }
{
    for (_, value) in members {
        if count_of(value).is_none() {
            return false;
        }
    }
    true
}

fn are_units(members: &Map) -> bool
    ensures { result ≡ are_units (members_view members.now.entries) }
{
    for (name, _) in members {
        if !is_unit(name) {
            return false;
        }
    }
    true
}

fn is_unit(name: &str) -> bool
    ensures { result ≡ is_unit name.now }
{
    unit_of(name).is_some()
}

fn count_of(value: &Value) -> Option<u32>
    ensures { result ≡ count_of (view value.now) }
{
    match value.as_u64() {
        Some(count) if count <= 1_000_000 => Some(count as u32),
        _ => None,
    }
}

fn counts_in(values: &Value) -> Counts
    ensures { result ≡ counts_by (λ unit. count_in count_of unit (view values.now)) }
{
    Counts([
        count_in(values, 1),
        count_in(values, 2),
        count_in(values, 3),
        count_in(values, 4),
        count_in(values, 5),
        count_in(values, 6),
        count_in(values, 7),
        count_in(values, 8),
    ])
}

fn count_in(values: &Value, unit: u8) -> u32
    requires low { 1 ≤ unit }
    requires high { unit ≤ 8 }
    ensures { result ≡ count_in count_of unit (view values.now) }
{
    match values.get(name_of(unit)) {
        Some(value) => count_of(value).unwrap_or(0),
        None => 0,
    }
}

// What a Storage.SetStorage adds. None where its `storage` has another shape.
pub(crate) fn read_storage(payload: &Value) -> Option<Named>
    ensures { result ≡ storage_in (view payload.now) }
{
    match read_added(payload) {
        Ok(added) => Some(Named::These(added)),
        Err(AddedFault::Unit) => Some(Named::OtherName),
        Err(AddedFault::Shape) => None,
    }
}
