//! The six places after a move.

ghost use Rattle.std.specs.Prelude.{◌≡◌, ℕ, ◌+◌, ◌-◌, ◌≤◌, ◌==◌, List, [], ◌∷◌, if◌then◌else◌};
ghost use Rattle.xfs_base.specs.Counts.{at, all_notes, LiesIn};
ghost use Rattle.xfs_base.specs.declared.money.NoteKind.{NoteKind};
ghost use Rattle.xfs_mech.specs.declared.motion.Motion.TheVariants.{Moved, Taken, Loaded};
ghost use Rattle.xfs_mech.specs.Mechanism.{source_of, PlacesFit, CanLoad};
ghost use Rattle.xfs_mech.specs.Motions.{PlacesOf};

use crate::counts::{minus, plus};
use xfs_base::{Counts, Kind, Places};

/// The places once an order's notes were moved, and those that a stack diverted went to rejected.
/// Only a stack diverts: of the other kinds the diverted counts aren't looked at.
pub fn after_order(places: &Places, kind: Kind, moved: &Counts, diverted: &Counts) -> Places
    requires notes { (u : ℕ) → all_notes places.now u ≤ 4000000000 }
    requires lie { (u : ℕ) → at moved.now u + at diverted.now u ≤ at (source_of kind places.now) u }
    ensures moved { (n : ℕ) → PlacesOf places.now (Moved n kind moved.now diverted.now ∷ []) result }
    ensures fit { (units : List NoteKind) → PlacesFit units places.now → PlacesFit units result }
{
    let mut new = *places;
    match kind {
        Kind::Stack => {
            new.units = minus(&places.units, &plus(moved, diverted));
            new.transport = plus(&places.transport, moved);
            new.rejected = plus(&places.rejected, diverted);
        }
        Kind::Present => {
            new.transport = minus(&places.transport, moved);
            new.outlet = plus(&places.outlet, moved);
        }
        Kind::Reject => {
            new.transport = minus(&places.transport, moved);
            new.rejected = plus(&places.rejected, moved);
        }
        Kind::Retract => {
            new.outlet = minus(&places.outlet, moved);
            new.retracted = plus(&places.retracted, moved);
        }
    }
    new
}

/// The places once the customer took notes from the outlet.
pub fn after_taking(places: &Places, taken: &Counts) -> Places
    requires notes { (u : ℕ) → all_notes places.now u ≤ 4000000000 }
    requires lie { LiesIn taken.now places.now.outlet }
    ensures moved { PlacesOf places.now (Taken taken.now ∷ []) result }
    ensures fit { (units : List NoteKind) → PlacesFit units places.now → PlacesFit units result }
{
    let mut new = *places;
    new.outlet = minus(&places.outlet, taken);
    new.taken = plus(&places.taken, taken);
    new
}

/// The places once the operator added notes to a unit, which counts from 1.
pub fn after_loading(places: &Places, unit: u8, count: u32) -> Places
    requires low { 1 ≤ unit }
    requires high { unit ≤ 8 }
    requires notes { (u : ℕ) → all_notes places.now u ≤ 4000000000 }
    requires room { all_notes places.now (unit - 1) + count ≤ 4000000000 }
    ensures moved { PlacesOf places.now (Loaded unit count ∷ []) result }
    ensures fit { (units : List NoteKind) → PlacesFit units places.now → CanLoad units places.now unit count → PlacesFit units result }
{
    let mut new = *places;
    new.units = plus(&places.units, &of_unit(unit, count));
    new
}

/// So many notes of one unit, which counts from 1, and none of another.
pub(crate) fn of_unit(unit: u8, count: u32) -> Counts
    requires low { 1 ≤ unit }
    requires high { unit ≤ 8 }
    ensures { (u : ℕ) → at result u ≡ (if unit == u + 1 then count else 0) }
{
    let mut counts = [0u32; 8];
    counts[usize::from(unit) - 1] = count;
    Counts(counts)
}
