ghost use Rattle.std.specs.Prelude.{◌+◌, ◌≤◌, length};
ghost use Rattle.std.specs.Vec.{vec_len, vec_capacity};
ghost use Rattle.xfs_mech.specs.Mechanism.{PlacesFit};

use crate::fault::{done, fault_of, nothing, outcome_of};
use crate::places::{after_loading, after_order, after_taking, of_unit};
use crate::{Fault, Mechanism, Motion, Order, Outcome};
use std::alloc::Global;
use xfs_base::{Counts, Memory, Places, UnitTable};

/// A mechanism in memory. It tells its list, its places and its count of faults.
#[derive(Drop)]
pub struct SimMech {
    units: UnitTable,
    places: Places,
    motions: Vec<Motion>,
    // For how many more motions there is room.
    room: usize,
    faults: Vec<Fault>,
    calls: u64,
    failures: u64,
    ghost few: { length units ≤ 8 },
    ghost held: { vec_len motions + room ≤ vec_capacity motions },
    ghost fit: { PlacesFit units places },
}

impl SimMech {
    ghost use Rattle.std.specs.Prelude.{◌≡◌, ◌≤◌, [], is_some};
    ghost use Rattle.xfs_mech.specs.Mechanism.{PlacesFit};
    ghost use Rattle.xfs_mech.specs.Sim.{units_of, places_of, motions_of, room_of, faults_of, calls_of, failures_of, due, Counted};

    /// A mechanism that has done nothing yet, with these faults to come.
    pub fn new(alloc: Global, units: UnitTable, places: Places, faults: Vec<Fault>) -> SimMech
        requires { PlacesFit units places }
        ensures units { units_of result ≡ units }
        ensures places { places_of result ≡ places }
        ensures motions { motions_of result ≡ [] }
        ensures faults { faults_of result ≡ faults.items }
        ensures calls { calls_of result ≡ 0 }
        ensures failures { failures_of result ≡ 0 }
    {
        prove!(units.len() <= 8);
        SimMech {
            units,
            places,
            motions: Vec::new(alloc),
            room: 0,
            faults,
            calls: 0,
            failures: 0,
        }
    }

    /// A mechanism that goes on with a list, with these faults to come.
    pub fn resume(
        units: UnitTable,
        places: Places,
        motions: Vec<Motion>,
        faults: Vec<Fault>,
    ) -> SimMech
        requires { PlacesFit units places }
        ensures units { units_of result ≡ units }
        ensures places { places_of result ≡ places }
        ensures motions { motions_of result ≡ motions.items }
        ensures faults { faults_of result ≡ faults.items }
        ensures calls { calls_of result ≡ 0 }
        ensures failures { failures_of result ≡ 0 }
    {
        prove!(units.len() <= 8);
        SimMech {
            units,
            places,
            motions,
            room: 0,
            faults,
            calls: 0,
            failures: 0,
        }
    }

    /// What it did, the oldest first.
    pub fn motions(&self) -> &[Motion]
        ensures { result.now ≡ motions_of self.now }
    {
        &self.motions
    }

    // Counts one more call, and says which fault it meets.
    fn count_call(&mut self) -> Option<Fault>
        ensures due { result ≡ due self.old }
        ensures counted { Counted self.old self.new (is_some result) }
        ensures places { places_of self.new ≡ places_of self.old }
        ensures motions { self.new.motions ≡ self.old.motions }
        ensures room { room_of self.new ≡ room_of self.old }
        ensures later { failures_of self.old ≤ failures_of self.new }
    {
        self.calls = self.calls.saturating_add(1);
        let fault = fault_of(&self.faults, self.calls);
        if fault.is_some() {
            self.failures = self.failures.saturating_add(1);
        }
        fault
    }
}

impl Mechanism for SimMech {
    ghost use Rattle.std.specs.Prelude.{◌≡◌, ℕ, ◌+◌, ◌<◌, ◌≤◌, [], ◌∷◌, ◌++◌, true, false, IfSome, OnOk, OnErr};
    ghost use Rattle.xfs_base.specs.Counts.{LiesIn};
    ghost use Rattle.xfs_mech.specs.declared.motion.Motion.TheVariants.{Taken, Loaded};
    ghost use Rattle.xfs_mech.specs.Orders.{kind_of, counts_of, moved_by};
    ghost use Rattle.xfs_mech.specs.Mechanism.{source_of, PlacesFit, MayCarry, Reports, MayReport, UsesRoom, CanLoad, Loads, MovesBy};
    ghost use Rattle.xfs_mech.specs.Faults.{StopsAt};
    ghost use Rattle.xfs_mech.specs.Sim.{units_of, places_of, motions_of, list_of, room_of, failures_of, due, Counted, Uncounted};

    ghost motions = { list_of };

    ghost places = { places_of };

    ghost units = { units_of };

    ghost room = { room_of };

    ghost faults = { failures_of };

    fn ready(&mut self) -> Result<(), Memory>
        ensures room { OnOk result (room_of self.old < room_of self.new) }
        ensures memory { OnErr result (room_of self.old ≤ room_of self.new) }
        ensures motions { motions_of self.new ≡ motions_of self.old }
        ensures places { places_of self.new ≡ places_of self.old }
        ensures units { units_of self.new ≡ units_of self.old }
        ensures uncounted { Uncounted self.old self.new }
    {
        let room = self.room.checked_add(1).ok_or(Memory)?;
        self.motions.reserve(room)?;
        self.room = room;
        Ok(())
    }

    fn execute(&mut self, order: Order) -> Outcome
        requires room { 0 < room_of self.old }
        requires lie { LiesIn (counts_of order) (source_of (kind_of order) (places_of self.old)) }
        ensures room { room_of self.new + 1 ≡ room_of self.old }
        ensures carried { MayCarry (kind_of order) (counts_of order) result.moved result.diverted result.failed }
        ensures moved { MovesBy (moved_by order result) (list_of self.old) (list_of self.new) (places_of self.old) (places_of self.new) }
        ensures counted { Counted self.old self.new result.failed }
        ensures stopped { IfSome (due self.old) (λ f. StopsAt f (kind_of order) (counts_of order) result.moved result.diverted) }
    {
        let fault = self.count_call();
        let (number, kind) = (order.number(), order.kind());
        let outcome = outcome_of(fault, kind, &order.counts());
        self.places = after_order(&self.places, kind, &outcome.moved, &outcome.diverted);
        self.room -= 1;
        self.motions.push_reserved(Motion::Moved {
            number,
            kind,
            moved: outcome.moved,
            diverted: outcome.diverted,
        });
        outcome
    }

    fn taken(&mut self) -> Outcome
        requires room { 0 < room_of self.old }
        ensures lie { LiesIn result.moved (places_of self.old).outlet }
        ensures moved { MayReport result.moved result.diverted result.failed }
        ensures reported { Reports (Taken result.moved) result.failed (list_of self.old) (list_of self.new) (places_of self.old) (places_of self.new) }
        ensures room { UsesRoom result.failed (room_of self.old) (room_of self.new) }
        ensures counted { Counted self.old self.new result.failed }
        ensures whole { result.failed ≡ false → result.moved ≡ (places_of self.old).outlet }
    {
        if self.count_call().is_some() {
            return nothing();
        }
        let counts = self.places.outlet;
        self.places = after_taking(&self.places, &counts);
        self.room -= 1;
        self.motions.push_reserved(Motion::Taken { counts });
        done(counts)
    }

    fn load(&mut self, unit: u8, count: u32) -> Outcome
        requires room { 0 < room_of self.old }
        requires fits { CanLoad (units_of self.old) (places_of self.old) unit count }
        ensures loaded { Loads unit count result.moved result.failed }
        ensures moved { MayReport result.moved result.diverted result.failed }
        ensures reported { Reports (Loaded unit count) result.failed (list_of self.old) (list_of self.new) (places_of self.old) (places_of self.new) }
        ensures room { UsesRoom result.failed (room_of self.old) (room_of self.new) }
        ensures counted { Counted self.old self.new result.failed }
    {
        if self.count_call().is_some() {
            return nothing();
        }
        self.places = after_loading(&self.places, unit, count);
        self.room -= 1;
        self.motions.push_reserved(Motion::Loaded { unit, count });
        done(of_unit(unit, count))
    }

    fn survey(&self) -> Places {
        self.places
    }

    ghost fit = { λ m. m.fit };
}
