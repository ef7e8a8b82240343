//! Whether each order with a Done has its motion.

ghost use Rattle.std.specs.Prelude.{◌≡◌, ℕ, ◌<◌, ◌↔◌, IsTrue, Contains, length};
ghost use Rattle.xfs_base.specs.declared.counts.Counts.{Counts as Notes};
ghost use Rattle.xfs_journal.specs.declared.record.Rec.TheVariants.{Done};
ghost use Rattle.xfs_mech.specs.declared.motion.Motion.TheVariants.{Moved};
ghost use Rattle.xfs_mech.specs.Motions.{NumberIs};
ghost use Rattle.xfs_guard.specs.Agrees.{RisesFrom};
ghost use Rattle.xfs_audit.specs.Told.{IsMovedAsDone, BeginsAt, IsEndFrom};

use xfs_base::{Counts, Kind};
use xfs_journal::Rec;
use xfs_mech::Motion;

/// Whether each order with a Done has its motion in the list, as the Done tells it. Records and
/// motions are read once, side by side.
pub fn are_told(records: &[Rec], motions: &[Motion]) -> bool
    requires { RisesFrom 0 motions.now }
    ensures { IsTrue result ↔ IsMovedAsDone records.now motions.now (length records.now) }
{
    let mut rest = motions;
    for place in 1..records.len() {
        if let Rec::Order { kind, .. } = &records[place - 1] {
            rest = from_number(rest, place as u64);
            if !is_told(rest, place as u64, *kind, &records[place]) {
                return false;
            }
        }
    }
    true
}

// The end of a list from the first moved entry of this number or a greater one on.
fn from_number(motions: &[Motion], number: u64) -> &[Motion]
    requires { RisesFrom 0 motions.now }
    ensures rises { RisesFrom 0 result.now }
    ensures begins { BeginsAt number result.now }
    ensures end { IsEndFrom number motions.now result.now }
{
    for i in 0..motions.len() {
        if !is_below(&motions[i], number) {
            return &motions[i..];
        }
    }
    &motions[motions.len()..]
}

// Whether the first entry is the motion that a Done tells of the order with this number, where the record behind it is one.
fn is_told(motions: &[Motion], number: u64, kind: Kind, behind: &Rec) -> bool
    requires rises { RisesFrom 0 motions.now }
    requires begins { BeginsAt number motions.now }
    ensures { IsTrue result ↔ ((moved diverted : Notes) → behind.now ≡ Done moved diverted → Contains motions.now (Moved number kind moved diverted)) }
{
    match behind {
        Rec::Done { moved, diverted } => is_first(motions, number, kind, moved, diverted),
        _ => true,
    }
}

// Whether this is the first entry, which is the only one that can have its number.
fn is_first(motions: &[Motion], number: u64, kind: Kind, moved: &Counts, diverted: &Counts) -> bool
    requires rises { RisesFrom 0 motions.now }
    requires begins { BeginsAt number motions.now }
    ensures { IsTrue result ↔ Contains motions.now (Moved number kind moved.now diverted.now) }
{
    match motions.first() {
        Some(first) => is_motion(first, number, kind, moved, diverted),
        None => false,
    }
}

fn is_motion(entry: &Motion, number: u64, kind: Kind, moved: &Counts, diverted: &Counts) -> bool
    ensures { IsTrue result ↔ entry.now ≡ Moved number kind moved.now diverted.now }
{
    *entry
        == Motion::Moved {
            number,
            kind,
            moved: *moved,
            diverted: *diverted,
        }
}

// Whether an entry's number is lower than this, where it has one.
fn is_below(entry: &Motion, number: u64) -> bool
    ensures { IsTrue result ↔ NumberIs (λ n. n < number) entry.now }
{
    match entry {
        Motion::Moved { number: n, .. } => *n < number,
        _ => true,
    }
}
