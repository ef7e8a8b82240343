ghost use Rattle.std.specs.Prelude.{◌≡◌, ◌≤◌, IfOk, length};
ghost use Rattle.serde_json.specs.View.{view, members_view};
ghost use Rattle.xfs_base.specs.Values.{IsCurrency};
ghost use Rattle.xfs_units.specs.Payloads.{unit_name, unit_payload, units_payload, storage_payload};

use serde_json::{Value, json, put};
use std::alloc::Global;
use xfs_base::{Counts, Memory, NoteKind, Places, UnitTable};
use xfs_json::Map;

/// The payload of Storage.GetStorage (XFS4IoT, CEN CWA): for each unit the notes in it, their
/// currency, and the value of one in whole units of the currency.
pub fn storage(alloc: Global, units: &UnitTable, places: &Places) -> Result<Value, Memory>
    ensures { IfOk result (λ v. view v ≡ storage_payload units.now places.now) }
{
    let units = units_of(alloc, units.kinds(), &places.units)?;
    let mut members = Map::new(alloc);
    put(&mut members, alloc, "storage", Value::Object(units))?;
    Ok(Value::Object(members))
}

// The units from the last to the first, so that each stands before those that are there.
fn units_of(alloc: Global, kinds: &[NoteKind], counts: &Counts) -> Result<Map, Memory>
    requires { length kinds.now ≤ 8 }
    ensures { IfOk result (λ m. members_view m.entries ≡ units_payload kinds.now 1 counts.now) }
{
    let mut members = Map::new(alloc);
    for i in (0..kinds.len()).rev() {
        let unit = unit_of(alloc, &kinds[i], counts.0[i])?;
        put(&mut members, alloc, name_of(i as u8 + 1), unit)?;
    }
    Ok(members)
}

fn unit_of(alloc: Global, kind: &NoteKind, count: u32) -> Result<Value, Memory>
    ensures { IfOk result (λ v. view v ≡ unit_payload kind.now count) }
{
    let letters = kind.currency.letters();
    let currency = text_of(&letters);
    Ok(json!(in alloc; {"count": count, "currency": currency, "value": kind.value})?)
}

/// The letters of a currency as a text.
pub fn text_of(letters: &[u8; 3]) -> &str
    requires { IsCurrency letters.now }
    ensures { result.now ≡ letters.now }
{
    match str::from_utf8(letters) {
        Ok(text) => text,
        Err(_) => unreachable!(),
    }
}

/// The name of a unit, which counts from 1: `unit1` to `unit8`.
pub fn name_of(unit: u8) -> &'static str
    requires low { 1 ≤ unit }
    requires high { unit ≤ 8 }
    ensures { result.now ≡ unit_name unit }
{
    match unit {
        1 => "unit1",
        2 => "unit2",
        3 => "unit3",
        4 => "unit4",
        5 => "unit5",
        6 => "unit6",
        7 => "unit7",
        _ => "unit8",
    }
}
