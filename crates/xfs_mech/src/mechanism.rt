ghost use Rattle.std.specs.Prelude.{◌≡◌, ℕ, List, ◌+◌, ◌<◌, ◌≤◌, OnOk, OnErr};
ghost use Rattle.std.specs.declared.option.Option.{Option};
ghost use Rattle.xfs_base.specs.Counts.{LiesIn};
ghost use Rattle.xfs_base.specs.declared.money.NoteKind.{NoteKind};
ghost use Rattle.xfs_base.specs.declared.counts.Places.{Places};
ghost use Rattle.xfs_mech.specs.declared.motion.Motion.{Motion};
ghost use Rattle.xfs_mech.specs.declared.motion.Motion.TheVariants.{Taken, Loaded};
ghost use Rattle.xfs_mech.specs.Orders.{kind_of, counts_of, moved_by};
ghost use Rattle.xfs_mech.specs.Mechanism.{source_of, PlacesFit, MayCarry, MovesBy, CountsFailure, Reports, MayReport, UsesRoom, CanLoad, Loads};

use crate::{Order, Outcome};
use xfs_base::{Memory, Places};

/// The mechanism of the machine. It moves notes only on an order, and never more than the order says.
pub trait Mechanism: Drop {
    /// What it did, the oldest first, where the object tells it.
    ghost motions: { Self → Option (List Motion) };

    /// Where the notes lie. Every mechanism tells this.
    ghost places: { Self → Places };

    /// The kinds of notes of its units, which no call changes.
    ghost units: { Self → List NoteKind };

    /// For how many more entries of the list there is room.
    ghost room: { Self → ℕ };

    /// How often it failed. The count never falls.
    ghost faults: { Self → ℕ };

    /// The limits on the places hold at every moment.
    ghost fit: { (m : Self) → PlacesFit (units m) (places m) };

    /// Makes room for one more entry of the list than there was room for. It moves nothing.
    fn ready(&mut self) -> Result<(), Memory>
        ensures room { OnOk result (room self.old < room self.new) }
        ensures memory { OnErr result (room self.old ≤ room self.new) }
        ensures motions { motions self.new ≡ motions self.old }
        ensures places { places self.new ≡ places self.old }
        ensures units { units self.new ≡ units self.old }
        ensures faults { faults self.new ≡ faults self.old };

    /// Carries out an order. It adds one entry, with what was moved and diverted, also where it fails.
    fn execute(&mut self, order: Order) -> Outcome
        requires room { 0 < room self.old }
        requires lie { LiesIn (counts_of order) (source_of (kind_of order) (places self.old)) }
        ensures room { room self.new + 1 ≡ room self.old }
        ensures carried { MayCarry (kind_of order) (counts_of order) result.moved result.diverted result.failed }
        ensures moved { MovesBy (moved_by order result) (motions self.old) (motions self.new) (places self.old) (places self.new) }
        ensures units { units self.new ≡ units self.old }
        ensures cause { CountsFailure (faults self.old) (faults self.new) result.failed };

    /// Reports the notes that the customer took from the outlet.
    fn taken(&mut self) -> Outcome
        requires room { 0 < room self.old }
        ensures lie { LiesIn result.moved (places self.old).outlet }
        ensures moved { MayReport result.moved result.diverted result.failed }
        ensures reported { Reports (Taken result.moved) result.failed (motions self.old) (motions self.new) (places self.old) (places self.new) }
        ensures room { UsesRoom result.failed (room self.old) (room self.new) }
        ensures units { units self.new ≡ units self.old }
        ensures cause { CountsFailure (faults self.old) (faults self.new) result.failed };

    /// Reports that the operator added so many notes to a unit.
    fn load(&mut self, unit: u8, count: u32) -> Outcome
        requires room { 0 < room self.old }
        requires fits { CanLoad (units self.old) (places self.old) unit count }
        ensures loaded { Loads unit count result.moved result.failed }
        ensures moved { MayReport result.moved result.diverted result.failed }
        ensures reported { Reports (Loaded unit count) result.failed (motions self.old) (motions self.new) (places self.old) (places self.new) }
        ensures room { UsesRoom result.failed (room self.old) (room self.new) }
        ensures units { units self.new ≡ units self.old }
        ensures cause { CountsFailure (faults self.old) (faults self.new) result.failed };

    /// Where the notes lie.
    fn survey(&self) -> Places
        ensures { result ≡ places self.now };
}
