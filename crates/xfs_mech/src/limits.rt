ghost use Rattle.std.specs.Prelude.{◌≡◌, ℕ, ◌+◌, ◌^◌, ◌<◌, ◌≤◌, ◌↔◌, IsTrue, slice_index};
ghost use Rattle.xfs_base.specs.Counts.{at, all_notes};
ghost use Rattle.xfs_mech.specs.Mechanism.{PlacesFit, CanLoad};

use xfs_base::{Counts, Places, UnitTable};

/// Of one unit's notes there are at most so many over the six places.
pub const MOST_NOTES: u64 = 4_000_000_000;

/// A unit holds at most so many notes.
pub const MOST_IN_A_UNIT: u32 = 10_000;

/// Whether places meet the limits of a mechanism's places: of each unit's notes at most
/// `MOST_NOTES` over the six places, at most `MOST_IN_A_UNIT` in the unit, and no notes of a unit
/// past the table.
pub fn places_fit(units: &UnitTable, places: &Places) -> bool
    ensures { IsTrue result ↔ PlacesFit units.now places.now }
{
    let len = usize::from(units.len());
    let totals = totals(places);
    for unit in 0..8 {
        if totals[unit] > MOST_NOTES
            || places.units.0[unit] > MOST_IN_A_UNIT
            || unit >= len && totals[unit] > 0
        {
            return false;
        }
    }
    true
}

/// Whether the unit is in the table, and the places meet the limits once so many notes were added
/// to it. Units count from 1.
pub fn can_load(units: &UnitTable, places: &Places, unit: u8, count: u32) -> bool
    ensures { IsTrue result ↔ CanLoad units.now places.now unit count }
{
    if unit == 0 || unit > units.len() {
        return false;
    }
    let at = usize::from(unit) - 1;
    totals(places)[at].saturating_add(u64::from(count)) <= MOST_NOTES
        && places.units.0[at].saturating_add(count) <= MOST_IN_A_UNIT
}

/// The notes of each unit over the six places.
pub fn totals(places: &Places) -> [u64; 8]
    ensures { (u : ℕ) → slice_index result u ≡ all_notes places.now u }
{
    let totals = add_counts([0; 8], &places.units);
    let totals = add_counts(totals, &places.transport);
    let totals = add_counts(totals, &places.outlet);
    let totals = add_counts(totals, &places.taken);
    let totals = add_counts(totals, &places.retracted);
    add_counts(totals, &places.rejected)
}

fn add_counts(mut totals: [u64; 8], counts: &Counts) -> [u64; 8]
    requires { (u : ℕ) → slice_index totals u < 2 ^ 63 }
    ensures sum { (u : ℕ) → slice_index result u ≡ slice_index totals u + at counts.now u }
    ensures bound { (u : ℕ) → slice_index result u < slice_index totals u + 2 ^ 32 }
{
    for unit in 0..8 {
        totals[unit] += u64::from(counts.0[unit]);
    }
    totals
}
