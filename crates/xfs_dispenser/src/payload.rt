//! What the answer of a dispense tells of its notes.

ghost use Rattle.std.specs.Prelude.{◌≡◌, ◌≢◌, ◌≤◌, IfOk, OnOk};
ghost use Rattle.serde_json.specs.View.{view, members_view};
ghost use Rattle.xfs_dispenser.specs.Answers.{answered};
ghost use Rattle.xfs_dispenser.specs.Denominations.{currencies_of, denomination_answer, denomination_payload, values_of, with_count, PutsCurrency};

use serde_json::{Value, put};
use std::alloc::Global;
use xfs_base::{Counts, Memory, NoteKind, UnitTable};
use xfs_envelope::Code;
use xfs_json::Map;
use xfs_units::{name_of, text_of};

/// The answer of a dispense of these notes: the amount in each currency, and the count of each unit.
pub(crate) fn denomination_answer(
    alloc: Global,
    units: &UnitTable,
    counts: &Counts,
) -> Result<(Code, Value), Memory>
    ensures { IfOk result (λ r. answered r.0 r.1 ≡ denomination_answer units.now counts.now) }
{
    let payload = denomination(alloc, units, counts)?;
    Ok((Code::Success, payload))
}

fn denomination(alloc: Global, units: &UnitTable, counts: &Counts) -> Result<Value, Memory>
    ensures { IfOk result (λ v. view v ≡ denomination_payload units.now counts.now) }
{
    let currencies = currencies_of(alloc, units, counts)?;
    let values = values_of(alloc, counts)?;
    let mut notes = Map::new(alloc);
    put(&mut notes, alloc, "currencies", Value::Object(currencies))?;
    put(&mut notes, alloc, "values", Value::Object(values))?;
    let mut members = Map::new(alloc);
    put(&mut members, alloc, "denomination", Value::Object(notes))?;
    Ok(Value::Object(members))
}

fn currencies_of(alloc: Global, units: &UnitTable, counts: &Counts) -> Result<Map, Memory>
    ensures { IfOk result (λ m. members_view m.entries ≡ currencies_of units.now counts.now) }
{
    let mut members = Map::new(alloc);
    let kinds = units.kinds();
    for at in 0..kinds.len() {
        put_currency(alloc, &mut members, units, counts, &kinds[at], counts.0[at])?;
    }
    Ok(members)
}

// The amount in a unit's currency, where there are notes of the unit.
fn put_currency(
    alloc: Global,
    map: &mut Map,
    units: &UnitTable,
    counts: &Counts,
    kind: &NoteKind,
    count: u32,
) -> Result<(), Memory>
    ensures none { OnOk result (count ≡ 0 → members_view map.new.entries ≡ members_view map.old.entries) }
    ensures some { OnOk result (count ≢ 0 → PutsCurrency units.now counts.now kind.now (members_view map.old.entries) (members_view map.new.entries)) }
{
    if count != 0 {
        let amount = counts.value(units, kind.currency) / 1000;
        let letters = kind.currency.letters();
        put(map, alloc, text_of(&letters), Value::from(amount as u64))?;
    }
    Ok(())
}

fn values_of(alloc: Global, counts: &Counts) -> Result<Map, Memory>
    ensures { IfOk result (λ m. members_view m.entries ≡ values_of counts.now.0) }
{
    let mut members = Map::new(alloc);
    for at in 0..8u8 {
        put_count(alloc, &mut members, at + 1, counts.0[usize::from(at)])?;
    }
    Ok(members)
}

// A unit's count, where there are notes of it.
fn put_count(alloc: Global, members: &mut Map, unit: u8, count: u32) -> Result<(), Memory>
    requires low { 1 ≤ unit }
    requires high { unit ≤ 8 }
    ensures none { OnOk result (count ≡ 0 → members_view members.new.entries ≡ members_view members.old.entries) }
    ensures some { OnOk result (count ≢ 0 → members_view members.new.entries ≡ with_count (members_view members.old.entries) (unit, count)) }
{
    if count != 0 {
        put(members, alloc, name_of(unit), Value::from(count))?;
    }
    Ok(())
}
