//! Whether records and motions tell the same.

ghost use Rattle.std.specs.Prelude.{◌≡◌, ℕ, ◌+◌, ◌<◌, ◌≤◌, ◌↔◌, IsTrue, Some, None};
ghost use Rattle.std.specs.declared.option.Option.{Option as Maybe};
ghost use Rattle.std.specs.List.{AllByRecursion};
ghost use Rattle.xfs_base.specs.Counts.{at};
ghost use Rattle.xfs_mech.specs.Motions.{NumberIs};
ghost use Rattle.xfs_journal.specs.declared.record.Rec.{Rec as Record};
ghost use Rattle.xfs_journal.specs.Journal.{Walk};
ghost use Rattle.xfs_guard.specs.Agrees.{Agrees, RisesFrom, IsAsked, IsOrdered, MayFollow, keep_last};
ghost use Rattle.xfs_audit.specs.Told.{low_after, IsOrderAt, IsOrderThere};

use crate::told::are_told;
use xfs_base::{Counts, Kind};
use xfs_journal::Rec;
use xfs_mech::Motion;

/// Whether the records of a journal and a mechanism's list of motions tell the same: an order follows
/// an order nowhere, each Done follows one, and its motion is in the list, whose numbers rise and are
/// those of orders that asked for as many notes.
pub fn agrees(records: &[Rec], motions: &[Motion]) -> bool
    ensures { IsTrue result ↔ Agrees records.now motions.now }
{
    rises(motions)
        && are_asked(records, motions)
        && is_shaped(records)
        && are_told(records, motions)
}

// Whether the numbers of the moved entries rise.
fn rises(motions: &[Motion]) -> bool
    ensures { IsTrue result ↔ RisesFrom 0 motions.now }
{
    let mut low = 0;
    for entry in motions {
        if !is_above(low, entry) {
            return false;
        }
        low = low_after(low, entry);
    }
    true
}

// Whether an entry's number is above this, where it is a moved one.
fn is_above(low: u64, entry: &Motion) -> bool
    ensures { IsTrue result ↔ NumberIs (λ n. low < n) entry.now }
{
    match entry {
        Motion::Moved { number, .. } => *number > low,
        _ => true,
    }
}

fn low_after(low: u64, entry: &Motion) -> u64
    ensures { result ≡ low_after low entry.now }
{
    match entry {
        Motion::Moved { number, .. } => *number,
        _ => low,
    }
}

// Whether each moved entry is of an order.
fn are_asked(records: &[Rec], motions: &[Motion]) -> bool
    ensures { IsTrue result ↔ AllByRecursion (IsAsked records.now) motions.now }
{
    for entry in motions {
        if !is_asked(records, entry) {
            return false;
        }
    }
    true
}

// Whether an entry is of an order that asked for as many notes, where it is a moved one.
fn is_asked(records: &[Rec], entry: &Motion) -> bool
    ensures { IsTrue result ↔ IsAsked records.now entry.now }
{
    match entry {
        Motion::Moved {
            number,
            kind,
            moved,
            diverted,
        } => is_ordered(records, *number, *kind, moved, diverted),
        _ => true,
    }
}

fn is_ordered(records: &[Rec], number: u64, kind: Kind, moved: &Counts, diverted: &Counts) -> bool
    ensures { IsTrue result ↔ IsOrdered records.now number kind moved.now diverted.now }
{
    match order_at(records, number) {
        Some((asked, counts)) => asked == kind && lie_in(moved, diverted, &counts),
        None => false,
    }
}

// The order whose record has this number.
fn order_at(records: &[Rec], number: u64) -> Option<(Kind, Counts)>
    ensures { IsOrderAt records.now number result }
{
    if number == 0 || number > records.len() as u64 {
        return None;
    }
    match &records[number as usize - 1] {
        Rec::Order { kind, counts } => Some((*kind, *counts)),
        _ => None,
    }
}

// Whether the notes that were moved and diverted lie within those that were asked for, unit by unit.
fn lie_in(moved: &Counts, diverted: &Counts, asked: &Counts) -> bool
    ensures { IsTrue result ↔ ((u : ℕ) → at moved.now u + at diverted.now u ≤ at asked.now u) }
{
    for i in 0..8 {
        if u64::from(moved.0[i]) + u64::from(diverted.0[i]) > u64::from(asked.0[i]) {
            return false;
        }
    }
    true
}

// Whether each record may follow the one before it.
fn is_shaped(records: &[Rec]) -> bool
    ensures { IsTrue result ↔ Walk keep_last MayFollow None records.now }
{
    let mut ordered = false;
    for entry in records {
        if !may_follow(ordered, entry) {
            return false;
        }
        ordered = is_order(entry);
    }
    true
}

// Whether a record may follow an order, or else what is none.
fn may_follow(ordered: bool, entry: &Rec) -> bool
    ensures { (before : Maybe Record) → IsOrderThere ordered before → (IsTrue result ↔ MayFollow before entry.now) }
{
    match entry {
        Rec::Done { .. } => ordered,
        Rec::Boot { .. } | Rec::Start { .. } => true,
        _ => !ordered,
    }
}

fn is_order(entry: &Rec) -> bool
    ensures { IsOrderThere result (Some entry.now) }
{
    matches!(entry, Rec::Order { .. })
}
