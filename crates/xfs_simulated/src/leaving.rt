//! Where the notes lie after a journal's records.

ghost use Rattle.std.specs.Prelude.{◌≡◌, ℕ, List, ◌+◌, ◌≤◌, ◌↔◌, ◌∷◌, [], IfNone, IfOk, IfSome, IsTrue};
ghost use Rattle.xfs_base.specs.Counts.{all_notes, at};
ghost use Rattle.xfs_base.specs.declared.money.NoteKind.{NoteKind};
ghost use Rattle.xfs_mech.specs.Mechanism.{PlacesFit, source_of};
ghost use Rattle.xfs_mech.specs.Motions.{PlacesOf};
ghost use Rattle.xfs_mech.specs.declared.motion.Motion.TheVariants.{Moved};
ghost use Rattle.xfs_simulated.specs.Leaving.{CanBeMade, IsLeft, IsLost, Leads, LeadsNowhere};

use std::alloc::Global;
use xfs_base::{Counts, Kind, Memory, Places, UnitTable};
use xfs_guard::motions_of;
use xfs_journal::Rec;
use xfs_mech::{Motion, after_loading, after_order, after_taking, can_load, lies_in, places_fit};

/// What the records that a mounted journal keeps give on the places of the boot record that is the first of them; what lies in
/// the outlet at the end is taken, as `motions_of` has it. None where the first is no boot record, and where on the way there
/// are no places that a mechanism may have.
pub fn places_left(
    alloc: Global,
    units: &UnitTable,
    records: &[Rec],
) -> Result<Option<Places>, Memory>
    ensures left { IfOk result (λ left. IfSome left (λ places. IsLeft units.now records.now places)) }
    ensures none { IfOk result (λ left. IfNone left (IsLost units.now records.now)) }
{
    let Some(Rec::Boot { places } | Rec::Start { places, .. }) = records.first() else {
        return Ok(None);
    };
    let motions = motions_of(alloc, 0, records)?;
    Ok(after_all(units, places.places(), &motions))
}

// The places after these motions, where each of them leads to places that a mechanism may have.
fn after_all(units: &UnitTable, start: &Places, motions: &[Motion]) -> Option<Places>
    ensures leads { IfSome result (λ places. Leads units.now start.now motions.now places) }
    ensures none { IfNone result (LeadsNowhere units.now start.now motions.now) }
{
    if !places_fit(units, start) {
        return None;
    }
    let mut places = *start;
    for motion in motions {
        places = after(units, &places, motion)?;
    }
    Some(places)
}

fn after(units: &UnitTable, places: &Places, motion: &Motion) -> Option<Places>
    requires { PlacesFit units.now places.now }
    ensures leads { IfSome result (λ new. Leads units.now places.now (motion.now ∷ []) new) }
    ensures none { IfNone result (¬ CanBeMade units.now places.now motion.now) }
{
    prove!(units.len() <= 8);
    match motion {
        Motion::Moved {
            number: _,
            kind,
            moved,
            diverted,
        } => after_moving(places, *kind, moved, diverted),
        Motion::Taken { counts } if lies_in(counts, &places.outlet) => {
            Some(after_taking(places, counts))
        }
        Motion::Loaded { unit, count } if can_load(units, places, *unit, *count) => {
            Some(after_loading(places, *unit, *count))
        }
        _ => None,
    }
}

fn after_moving(places: &Places, kind: Kind, moved: &Counts, diverted: &Counts) -> Option<Places>
    requires { (u : ℕ) → all_notes places.now u ≤ 4000000000 }
    ensures moved { IfSome result (λ new. (n : ℕ) → PlacesOf places.now (Moved n kind moved.now diverted.now ∷ []) new) }
    ensures fit { IfSome result (λ new. (units : List NoteKind) → PlacesFit units places.now → PlacesFit units new) }
    ensures none { IfNone result (¬ ((u : ℕ) → at moved.now u + at diverted.now u ≤ at (source_of kind places.now) u)) }
{
    if both_lie_in(moved, diverted, source(places, kind)) {
        Some(after_order(places, kind, moved, diverted))
    } else {
        None
    }
}

// Where a kind of order takes its notes from.
fn source(places: &Places, kind: Kind) -> &Counts
    ensures { result.now ≡ source_of kind places.now }
{
    match kind {
        Kind::Stack => &places.units,
        Kind::Present | Kind::Reject => &places.transport,
        Kind::Retract => &places.outlet,
    }
}

fn both_lie_in(moved: &Counts, diverted: &Counts, source: &Counts) -> bool
    ensures { IsTrue result ↔ ((u : ℕ) → at moved.now u + at diverted.now u ≤ at source.now u) }
{
    for i in 0..8 {
        if u64::from(moved.0[i]) + u64::from(diverted.0[i]) > u64::from(source.0[i]) {
            return false;
        }
    }
    true
}
