//! The motions that a journal stands for.

ghost use Rattle.std.specs.Prelude.{◌≡◌, ◌+◌, ◌-◌, ◌<◌, ◌≤◌, ◌^◌, List, ◌++◌, length, IfOk, OnOk};
ghost use Rattle.xfs_mech.specs.declared.motion.Motion.{Motion};
ghost use Rattle.xfs_guard.specs.Agrees.{Agrees};
ghost use Rattle.xfs_guard.specs.Replayed.{AgreesFrom, CanReplay, left_of, taken_of, renumbered, replay_after, replay_done, replayed};

use std::alloc::Global;
use std::marker::Model;
use xfs_base::{Counts, Kind, Memory};
use xfs_journal::Rec;
use xfs_mech::Motion;

/// The motions that a journal's records stand for, where `base` records stand in front of them: a Moved
/// for each order with a Done, with the order's number and kind and the Done's counts; a Loaded for each
/// Load; and, before the Moved of each order to present and at the end, a Taken of what then lies in the
/// outlet, where it isn't empty. What lies there is what the last boot record tells, and what the orders
/// since then presented and retracted; a count that would fall below 0 stays there. An order without a
/// Done gives no entry. An order's number is its place in the records with the base on top.
///
/// But for the base in its numbers the list agrees with the records wherever some list does, as the
/// mechanism's does with its guard's records. The call is refused only for want of memory.
pub fn motions_of(alloc: Global, base: u64, records: &[Rec]) -> Result<Vec<Motion>, Memory>
    requires room { base + length records.now ≤ 18446744073709551615 }
    ensures replayed { IfOk result (λ list. list.items ≡ renumbered base (replayed records.now)) }
    ensures agrees { IfOk result (λ list. CanReplay records.now → AgreesFrom base records.now list.items) }
    ensures possible { IfOk result (λ list. (motions : List Motion) → Agrees records.now motions → AgreesFrom base records.now list.items) }
{
    let mut replay = Replay {
        count: base,
        ordered: None,
        outlet: Counts([0; 8]),
        motions: Vec::new(alloc),
    };
    for entry in records {
        replay.read(entry)?;
    }
    replay.end()
}

// What the records that were read so far tell; the count has the base on top.
#[derive(Drop)]
struct Replay {
    count: u64,
    ordered: Option<Kind>,
    outlet: Counts,
    motions: Vec<Motion>,
}

impl Model for Replay {
    ghost use Rattle.xfs_guard.specs.Replayed.{Replay as Replaying};

    ghost Value = { Replaying };

    ghost view = { λ r. record { count = r.count; ordered = r.ordered; outlet = r.outlet; motions = r.motions.items } };
}

impl Replay {
    // One more record is read.
    fn read(&mut self, entry: &Rec) -> Result<(), Memory>
        requires room { self.old.count < 2 ^ 64 - 1 }
        ensures ok { OnOk result (self.new ≡ replay_after self.old entry.now) }
    {
        match entry {
            Rec::Boot { places } | Rec::Start { places, .. } => self.outlet = places
                .places()
                .outlet,
            Rec::Done { moved, diverted } => self.done(moved, diverted)?,
            Rec::Load { unit, count } => self.motions.push(Motion::Loaded {
                unit: *unit,
                count: *count,
            })?,
            _ => {}
        }
        self.ordered = match entry {
            Rec::Order { kind, .. } => Some(*kind),
            _ => None,
        };
        self.count += 1;
        Ok(())
    }

    // The order that was read last is done. Notes are presented only once those before were taken.
    fn done(&mut self, moved: &Counts, diverted: &Counts) -> Result<(), Memory>
        ensures ok { OnOk result (self.new ≡ replay_done self.old moved.now diverted.now) }
    {
        let Some(kind) = self.ordered else {
            return Ok(());
        };
        match kind {
            Kind::Present => {
                self.take()?;
                self.outlet = *moved;
            }
            Kind::Retract => self.outlet = left_of(&self.outlet, moved),
            Kind::Stack | Kind::Reject => {}
        }
        self.motions.push(Motion::Moved {
            number: self.count,
            kind,
            moved: *moved,
            diverted: *diverted,
        })?;
        Ok(())
    }

    // What lies in the outlet is taken.
    fn take(&mut self) -> Result<(), Memory>
        ensures ok { OnOk result (self.new ≡ record self.old { motions = self.old.motions ++ taken_of self.old.outlet }) }
    {
        if self.outlet.notes() > 0 {
            self.motions.push(Motion::Taken {
                counts: self.outlet,
            })?;
        }
        Ok(())
    }

    // The motions, once what lies in the outlet at the end was taken.
    fn end(mut self) -> Result<Vec<Motion>, Memory>
        ensures ok { IfOk result (λ list. list.items ≡ self.motions ++ taken_of self.outlet) }
    {
        self.take()?;
        Ok(self.motions)
    }
}

// What is left in each unit.
fn left_of(counts: &Counts, gone: &Counts) -> Counts
    ensures { result ≡ left_of counts.now gone.now }
{
    let mut left = counts.0;
    for i in 0..8 {
        left[i] = left[i].saturating_sub(gone.0[i]);
    }
    Counts(left)
}
