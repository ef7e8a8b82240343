//! How the machines of a fleet begin anew, and how they end.

ghost use Rattle.std.specs.Prelude.{◌≡◌, IfOk, IfErr};
ghost use Rattle.xfs_fleet.specs.Endings.{Ends, IsRefusedRestart, BeginsAnew};
ghost use Rattle.xfs_fleet.specs.FleetView.{machine_of, with_machine};
ghost use Rattle.xfs_fleet.specs.declared.side.Side.TheVariants.{A, B};

use crate::fail::{FleetFail, Pair};
use crate::fleet::Fleet;
use crate::side::Side;
use xfs_disk::Disk;
use xfs_guard::BootFail;
use xfs_machine::Machine;
use xfs_mech::Mechanism;

impl<M: Mechanism, D: Disk> Fleet<M, D> {
    /// The machine of a side begins anew, and the other goes on. Where it is refused that, both end.
    pub fn restart(self, side: Side) -> Result<Fleet<M, D>, FleetFail<M, D>>
        ensures ok { IfOk result (λ f. BeginsAnew D.Disk (machine_of self side) (machine_of f side)) }
        ensures other { IfOk result (λ f. f ≡ with_machine self side (machine_of f side)) }
        ensures side { IfErr result (λ f. f.side ≡ side) }
        ensures a_refused { IfErr result (λ f. side ≡ A → IsRefusedRestart M.Mechanism D.Disk self.a f.why f.a.mech f.a.disk) }
        ensures b_ended { IfErr result (λ f. side ≡ A → Ends M.Mechanism D.Disk self.b f.b.mech f.b.disk) }
        ensures a_ended { IfErr result (λ f. side ≡ B → Ends M.Mechanism D.Disk self.a f.a.mech f.a.disk) }
        ensures b_refused { IfErr result (λ f. side ≡ B → IsRefusedRestart M.Mechanism D.Disk self.b f.why f.b.mech f.b.disk) }
    {
        let Fleet { a, b } = self;
        match side {
            Side::A => restart_first(a, b),
            Side::B => restart_second(a, b),
        }
    }

    /// Ends both machines, each as a machine ends by itself: an open order stays in its journal and is never carried
    /// out. It takes no memory.
    pub fn end(self) -> (Pair<M, D>, Pair<M, D>)
        ensures a { Ends M.Mechanism D.Disk self.a result.0.mech result.0.disk }
        ensures b { Ends M.Mechanism D.Disk self.b result.1.mech result.1.disk }
    {
        let Fleet { a, b } = self;
        (Pair::of(a), Pair::of(b))
    }
}

impl<M: Mechanism, D: Disk> Pair<M, D> {
    /// What comes back of a machine that ends.
    pub fn of(machine: Machine<M, D>) -> Pair<M, D>
        ensures { Ends M.Mechanism D.Disk machine result.mech result.disk }
    {
        let (mech, disk) = machine.end();
        Pair { mech, disk }
    }
}

// The restart of one machine.
fn restart_one<M: Mechanism, D: Disk>(
    machine: Machine<M, D>,
) -> Result<Machine<M, D>, BootFail<M, D>>
    ensures ok { IfOk result (BeginsAnew D.Disk machine) }
    ensures err { IfErr result (λ f. IsRefusedRestart M.Mechanism D.Disk machine f.why f.mech f.disk) }
{
    machine.restart()
}

fn restart_first<M: Mechanism, D: Disk>(
    a: Machine<M, D>,
    b: Machine<M, D>,
) -> Result<Fleet<M, D>, FleetFail<M, D>>
    ensures ok { IfOk result (λ f. BeginsAnew D.Disk a f.a) }
    ensures other { IfOk result (λ f. f.b ≡ b) }
    ensures side { IfErr result (λ f. f.side ≡ A) }
    ensures refused { IfErr result (λ f. IsRefusedRestart M.Mechanism D.Disk a f.why f.a.mech f.a.disk) }
    ensures ended { IfErr result (λ f. Ends M.Mechanism D.Disk b f.b.mech f.b.disk) }
{
    match restart_one(a) {
        Ok(a) => Ok(Fleet { a, b }),
        Err(BootFail { why, mech, disk }) => Err(FleetFail {
            side: Side::A,
            why,
            a: Pair { mech, disk },
            b: Pair::of(b),
        }),
    }
}

fn restart_second<M: Mechanism, D: Disk>(
    a: Machine<M, D>,
    b: Machine<M, D>,
) -> Result<Fleet<M, D>, FleetFail<M, D>>
    ensures ok { IfOk result (λ f. BeginsAnew D.Disk b f.b) }
    ensures other { IfOk result (λ f. f.a ≡ a) }
    ensures side { IfErr result (λ f. f.side ≡ B) }
    ensures refused { IfErr result (λ f. IsRefusedRestart M.Mechanism D.Disk b f.why f.b.mech f.b.disk) }
    ensures ended { IfErr result (λ f. Ends M.Mechanism D.Disk a f.a.mech f.a.disk) }
{
    match restart_one(b) {
        Ok(b) => Ok(Fleet { a, b }),
        Err(BootFail { why, mech, disk }) => Err(FleetFail {
            side: Side::B,
            why,
            a: Pair::of(a),
            b: Pair { mech, disk },
        }),
    }
}
