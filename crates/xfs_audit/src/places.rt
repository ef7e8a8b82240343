//! Whether motions lead from the places at the beginning to those at the end.

ghost use Rattle.std.specs.Prelude.{◌≡◌, ℕ, ◌+◌, ◌<◌, ◌≤◌, ◌^◌, ◌↔◌, IsTrue, List, [], ◌∷◌, ◌++◌, slice_index};
ghost use Rattle.xfs_base.specs.Counts.{at};
ghost use Rattle.xfs_mech.specs.declared.motion.Motion.{Motion as Entry};
ghost use Rattle.xfs_mech.specs.declared.motion.Motion.TheVariants.{Moved, Loaded};
ghost use Rattle.xfs_mech.specs.Motions.{PlacesOf};
ghost use Rattle.xfs_audit.specs.Flow.{IsFlow, IsSmall, Balances, BalancesInside, BalancesOutside};

use xfs_base::{Counts, Kind, Places};
use xfs_mech::Motion;

/// Whether motions lead from these places to those, unit by unit. What lay in a place on the way
/// isn't looked at, nor is the order of the motions.
pub fn leads_to(from: &Places, motions: &[Motion], to: &Places) -> bool
    ensures { IsTrue result ↔ PlacesOf from.now motions.now to.now }
{
    let mut flow = Flow::new();
    for entry in motions {
        flow.add(entry);
    }
    flow.joins(*from, *to)
}

// How many notes of each unit the motions moved, by where they moved them.
#[derive(Drop)]
pub(crate) struct Flow {
    stacked: [u128; 8],
    diverted: [u128; 8],
    presented: [u128; 8],
    rejected: [u128; 8],
    retracted: [u128; 8],
    taken: [u128; 8],
    loaded: [u128; 8],
    // Those that were loaded into what is no unit.
    astray: u128,
}

impl Flow {
    fn new() -> Flow
        ensures none { IsFlow [] result }
        ensures small { IsSmall 0 result }
    {
        Flow {
            stacked: [0; 8],
            diverted: [0; 8],
            presented: [0; 8],
            rejected: [0; 8],
            retracted: [0; 8],
            taken: [0; 8],
            loaded: [0; 8],
            astray: 0,
        }
    }

    // One more motion is read.
    fn add(&mut self, entry: &Motion)
        requires room { IsSmall (2 ^ 120) self.old }
        ensures added { (motions : List Entry) → IsFlow motions self.old → IsFlow (motions ++ entry.now ∷ []) self.new }
        ensures small { (most : ℕ) → IsSmall most self.old → IsSmall (most + 2 ^ 32) self.new }
    {
        match entry {
            Motion::Moved {
                kind,
                moved,
                diverted,
                ..
            } => self.carry(*kind, moved, diverted),
            Motion::Taken { counts } => self.taken = plus(self.taken, counts),
            Motion::Loaded { unit, count } => self.load(*unit, *count),
        }
    }

    // An order moved and diverted these notes.
    fn carry(&mut self, kind: Kind, moved: &Counts, diverted: &Counts)
        requires room { IsSmall (2 ^ 120) self.old }
        ensures added { (motions : List Entry) (n : ℕ) → IsFlow motions self.old → IsFlow (motions ++ Moved n kind moved.now diverted.now ∷ []) self.new }
        ensures small { (most : ℕ) → IsSmall most self.old → IsSmall (most + 2 ^ 32) self.new }
    {
        match kind {
            Kind::Stack => {
                self.stacked = plus(self.stacked, moved);
                self.diverted = plus(self.diverted, diverted);
            }
            Kind::Present => self.presented = plus(self.presented, moved),
            Kind::Reject => self.rejected = plus(self.rejected, moved),
            Kind::Retract => self.retracted = plus(self.retracted, moved),
        }
    }

    // So many notes were loaded into a unit.
    fn load(&mut self, unit: u8, count: u32)
        requires room { IsSmall (2 ^ 120) self.old }
        ensures added { (motions : List Entry) → IsFlow motions self.old → IsFlow (motions ++ Loaded unit count ∷ []) self.new }
        ensures small { (most : ℕ) → IsSmall most self.old → IsSmall (most + 2 ^ 32) self.new }
    {
        if unit > 8 {
            self.astray += u128::from(count);
        } else if unit > 0 {
            self.loaded[usize::from(unit) - 1] += u128::from(count);
        }
    }

    // Whether the notes that were moved join these places in every unit, and none went astray.
    fn joins(self, from: Places, to: Places) -> bool
        requires room { IsSmall (2 ^ 120) self }
        ensures joins { IsTrue result ↔ ((self.astray ≡ 0) × ((u : ℕ) → Balances u from self to)) }
        ensures past { (u : ℕ) → 8 ≤ u → at to.units u + (slice_index self.stacked u + slice_index self.diverted u) ≡ 0 }
    {
        if self.astray > 0 {
            return false;
        }
        for unit in 0..8 {
            if !self.joins_at(unit, &from, &to) {
                return false;
            }
        }
        true
    }

    fn joins_at(&self, unit: usize, from: &Places, to: &Places) -> bool
        requires unit { unit < 8 }
        requires room { IsSmall (2 ^ 120) self.now }
        ensures { IsTrue result ↔ Balances unit from.now self.now to.now }
    {
        self.keeps_inside(unit, from, to) && self.keeps_outside(unit, from, to)
    }

    // The units, the transport and the outlet.
    fn keeps_inside(&self, unit: usize, from: &Places, to: &Places) -> bool
        requires unit { unit < 8 }
        requires room { IsSmall (2 ^ 120) self.now }
        ensures { IsTrue result ↔ BalancesInside unit from.now self.now to.now }
    {
        u128::from(to.units.0[unit]) + self.stacked[unit] + self.diverted[unit]
            == u128::from(from.units.0[unit]) + self.loaded[unit]
            && u128::from(to.transport.0[unit]) + self.presented[unit] + self.rejected[unit]
                == u128::from(from.transport.0[unit]) + self.stacked[unit]
            && u128::from(to.outlet.0[unit]) + self.retracted[unit] + self.taken[unit]
                == u128::from(from.outlet.0[unit]) + self.presented[unit]
    }

    // What was taken, retracted and rejected.
    fn keeps_outside(&self, unit: usize, from: &Places, to: &Places) -> bool
        requires unit { unit < 8 }
        requires room { IsSmall (2 ^ 120) self.now }
        ensures { IsTrue result ↔ BalancesOutside unit from.now self.now to.now }
    {
        u128::from(to.taken.0[unit]) == u128::from(from.taken.0[unit]) + self.taken[unit]
            && u128::from(to.retracted.0[unit])
                == u128::from(from.retracted.0[unit]) + self.retracted[unit]
            && u128::from(to.rejected.0[unit])
                == u128::from(from.rejected.0[unit]) + self.rejected[unit] + self.diverted[unit]
    }
}

// What sums of notes are with these added, unit by unit.
fn plus(mut sums: [u128; 8], counts: &Counts) -> [u128; 8]
    requires { (u : ℕ) → slice_index sums u ≤ 2 ^ 120 }
    ensures sum { (u : ℕ) → slice_index result u ≡ slice_index sums u + at counts.now u }
    ensures small { (u : ℕ) → slice_index result u < slice_index sums u + 2 ^ 32 }
{
    for unit in 0..8 {
        sums[unit] += u128::from(counts.0[unit]);
    }
    sums
}
