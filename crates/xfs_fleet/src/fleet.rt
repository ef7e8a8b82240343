ghost use Rattle.std.specs.Prelude.{◌≡◌};
ghost use Rattle.std.specs.Borrow.{sem};
ghost use Rattle.xfs_fleet.specs.FleetView.{machine_of};
ghost use Rattle.xfs_fleet.specs.Lending.{LendsMachine};

use crate::side::Side;
use std::marker::Model;
use xfs_disk::Disk;
use xfs_machine::Machine;
use xfs_mech::Mechanism;

/// Two machines. They share nothing: no key, nonce, token, clock, client, mechanism or disk.
#[derive(Drop)]
pub struct Fleet<M: Mechanism, D: Disk> {
    pub(crate) a: Machine<M, D>,
    pub(crate) b: Machine<M, D>,
}

impl<M: Mechanism, D: Disk> Model for Fleet<M, D> {
    ghost use Rattle.std.specs.Coded.{codes};
    ghost use Rattle.xfs_traffic.specs.DataCodes.{data_code};
    ghost use Rattle.xfs_fleet.specs.FleetView.{FleetView};

    ghost Value = { FleetView D };

    ghost coded = { Prim.hlevel (codes, data_code) };

    ghost view = { λ f. record { a = f.a; b = f.b } };
}

impl<M: Mechanism, D: Disk> Fleet<M, D> {
    /// The machine of a side, for the calls that come to it.
    pub fn pick(&mut self, side: Side) -> &mut Machine<M, D>
        ensures* writes_back { sem 𝓛 (LendsMachine M.row D.row M.Mechanism D.Disk self.entry side result) }
        ensures now { result.now ≡ machine_of self.old side }
    {
        match side {
            Side::A => &mut self.a,
            Side::B => &mut self.b,
        }
    }
    /// The two machines, each for itself.
    pub fn into_machines(self) -> (Machine<M, D>, Machine<M, D>)
        ensures a { result.0 ≡ self.a }
        ensures b { result.1 ≡ self.b }
    {
        let Fleet { a, b } = self;
        (a, b)
    }
}
