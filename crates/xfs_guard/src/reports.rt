//! What customers and operators do with notes: the guard's reports of it, and the record of a loading.

ghost use Rattle.std.specs.Prelude.{◌≡◌, ◌≢◌, ◌↔◌, ◌≤◌, length, Some, OnOk, OnErr, IfOk, IsTrue};
ghost use Rattle.xfs_base.specs.Counts.{LiesIn};
ghost use Rattle.xfs_base.specs.declared.counts.Kind.TheVariants.{Retract};
ghost use Rattle.xfs_mech.specs.Mechanism.{CanLoad, Loads};
ghost use Rattle.xfs_mech.specs.declared.motion.Motion.TheVariants.{Taken, Loaded};
ghost use Rattle.xfs_journal.specs.declared.record.Rec.TheVariants.{Load};
ghost use Rattle.xfs_guard.specs.declared.open.Open.TheVariants.{No};
ghost use Rattle.xfs_guard.specs.Orders.{kind_unacted};
ghost use Rattle.xfs_guard.specs.Fits.{unfit};
ghost use Rattle.xfs_guard.specs.View.{with_record};
ghost use Rattle.xfs_guard.specs.Refusals.{Answers};
ghost use Rattle.xfs_guard.specs.Reports.{HasReported};
ghost use Rattle.xfs_guard.specs.Calls.{UsesMechanism, WritesRecord, is_failed};
ghost use Rattle.xfs_guard.specs.CrashOutcomes.{MayTake};

use crate::{Deny, Guard};
use xfs_base::Memory;
use xfs_disk::Disk;
use xfs_mech::{Mechanism, Outcome, can_load};

impl<M: Mechanism, D: Disk> Guard<M, D> {
    /// Whether the unit is in the table, which counts from 1, and the limits hold once so many notes
    /// were added to it: at most 10,000 notes in a unit, and 4,000,000,000 of it over the six places.
    pub fn room(&self, unit: u8, count: u32) -> bool
        ensures { IsTrue result ↔ CanLoad self.now.state.units self.now.state.places unit count }
    {
        can_load(self.ledger.units(), &self.mech.survey(), unit, count)
    }

    /// The customer took notes from the outlet, as many as the outcome says. The journal has nothing
    /// of it, and an order that is open stays so.
    pub fn taken(&mut self) -> Result<Outcome, Memory>
        requires no_retract { kind_unacted self.old.state.open_order ≢ Some Retract }
        ensures lie { IfOk result (λ o. LiesIn o.moved self.old.state.places.outlet) }
        ensures ok { IfOk result (λ o. HasReported self.old.state self.new.state (Taken o.moved) o.moved o.diverted o.failed) }
        ensures err { OnErr result (self.new.state ≡ self.old.state) }
        ensures uses { UsesMechanism D.Disk (MayTake self.old.state) (is_failed result) self.old self.new }
    {
        self.mech.ready()?;
        Ok(self.mech.taken())
    }

    /// The operator adds so many notes to a unit, which counts from 1. The journal has nothing of it
    /// until `note_load`, and an order that is open stays so. Where it doesn't fail, the notes count among those
    /// that were loaded since the last boot record.
    pub fn load(&mut self, unit: u8, count: u32) -> Result<Outcome, Memory>
        requires fits { CanLoad self.old.state.units self.old.state.places unit count }
        ensures loaded { IfOk result (λ o. Loads unit count o.moved o.failed) }
        ensures ok { IfOk result (λ o. HasReported self.old.state self.new.state (Loaded unit count) o.moved o.diverted o.failed) }
        ensures err { OnErr result (self.new.state ≡ self.old.state) }
        ensures uses { UsesMechanism D.Disk (λ entry. entry ≡ Loaded unit count) (is_failed result) self.old self.new }
    {
        self.mech.ready()?;
        let outcome = self.mech.load(unit, count);
        if outcome.failed {
            return Ok(outcome);
        }
        self.ledger.count_load(unit, count);
        Ok(outcome)
    }

    /// Writes down that the operator added so many notes to a unit, which counts from 1. After `Disk`
    /// the journal is shut.
    pub fn note_load(&mut self, unit: u8, count: u32) -> Result<(), Deny>
        requires none { self.old.state.open_order ≡ No }
        requires low { 1 ≤ unit }
        requires high { unit ≤ length self.old.state.units }
        ensures refused { Answers result (unfit self.old.state) }
        ensures ok { OnOk result (self.new.state ≡ with_record (Load unit count) self.old.state) }
        ensures writes { WritesRecord D.Disk (Load unit count) result self.old self.new }
    {
        if let Some(deny) = self.unfit() {
            return Err(deny);
        }
        prove!(unit <= self.ledger.units().len());
        self.ledger.load(unit, count)?;
        Ok(())
    }
}
