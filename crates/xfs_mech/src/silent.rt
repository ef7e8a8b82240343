use crate::{Mechanism, Order, Outcome, SimMech};
use xfs_base::{Memory, Places};

/// A mechanism in memory that tells its places, but not its list.
#[derive(Drop)]
pub struct SilentMech {
    inner: SimMech,
}

impl SilentMech {
    ghost use Rattle.std.specs.Prelude.{◌≡◌};
    ghost use Rattle.xfs_mech.specs.Sim.{inner_of};

    /// Over this mechanism, whose list it hides.
    pub fn new(inner: SimMech) -> SilentMech
        ensures { inner_of result ≡ inner }
    {
        SilentMech { inner }
    }
}

impl Mechanism for SilentMech {
    ghost use Rattle.std.specs.Prelude.{None};
    ghost use Rattle.xfs_mech.specs.Sim.{units_of, places_of, room_of, failures_of, inner_of};

    ghost motions = { λ m. None };

    ghost places = { λ m. places_of (inner_of m) };

    ghost units = { λ m. units_of (inner_of m) };

    ghost room = { λ m. room_of (inner_of m) };

    ghost faults = { λ m. failures_of (inner_of m) };

    fn ready(&mut self) -> Result<(), Memory> {
        self.inner.ready()
    }

    fn execute(&mut self, order: Order) -> Outcome {
        self.inner.execute(order)
    }

    fn taken(&mut self) -> Outcome {
        self.inner.taken()
    }

    fn load(&mut self, unit: u8, count: u32) -> Outcome {
        self.inner.load(unit, count)
    }

    fn survey(&self) -> Places {
        self.inner.survey()
    }

    ghost fit = { λ m. m.inner.fit };
}
