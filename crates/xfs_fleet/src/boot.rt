//! How a fleet begins.

ghost use Rattle.std.specs.Prelude.{◌≡◌, IfOk, IfErr};
ghost use Rattle.xfs_guard.specs.Recorded.{IsRecorded};
ghost use Rattle.xfs_guard.specs.Stored.{EachLeft};
ghost use Rattle.xfs_fleet.specs.Boots.{BootsBoth, IsBooted, IsRefusedBoot, RefusesFirst, RefusesSecond};
ghost use Rattle.xfs_fleet.specs.Endings.{Ends};
ghost use Rattle.xfs_fleet.specs.declared.side.Side.TheVariants.{A, B};

use crate::fail::{FleetFail, Pair};
use crate::fleet::Fleet;
use crate::side::Side;
use std::alloc::Global;
use xfs_disk::Disk;
use xfs_guard::{BootFail, Core};
use xfs_machine::Machine;
use xfs_mech::Mechanism;

impl<M: Mechanism, D: Disk> Fleet<M, D> {
    /// Boots the machine of the first core, then that of the second. Where the first is refused, the second core comes
    /// back as it was; where the second is, the first machine has got its boot record, and ends.
    pub fn boot(alloc: Global, a: Core<M, D>, b: Core<M, D>) -> Result<Fleet<M, D>, FleetFail<M, D>>
        requires a_units { M.units a.mech ≡ a.units }
        requires a_recorded { EachLeft D.Disk a.disk (IsRecorded a.key a.units (M.motions a.mech)) }
        requires b_units { M.units b.mech ≡ b.units }
        requires b_recorded { EachLeft D.Disk b.disk (IsRecorded b.key b.units (M.motions b.mech)) }
        ensures both { IfOk result (BootsBoth M.Mechanism D.Disk a b) }
        ensures first { IfErr result (λ f. f.side ≡ A → RefusesFirst M.Mechanism D.Disk a b f) }
        ensures second { IfErr result (λ f. f.side ≡ B → RefusesSecond M.Mechanism D.Disk a b f) }
    {
        match boot_one(alloc, a) {
            Ok(a) => boot_second(alloc, a, b),
            Err(BootFail { why, mech, disk }) => Err(FleetFail {
                side: Side::A,
                why,
                a: Pair { mech, disk },
                b: Pair {
                    mech: b.mech,
                    disk: b.disk,
                },
            }),
        }
    }
}

// The machine of one side.
fn boot_one<M: Mechanism, D: Disk>(
    alloc: Global,
    core: Core<M, D>,
) -> Result<Machine<M, D>, BootFail<M, D>>
    requires units { M.units core.mech ≡ core.units }
    requires recorded { EachLeft D.Disk core.disk (IsRecorded core.key core.units (M.motions core.mech)) }
    ensures ok { IfOk result (IsBooted M.Mechanism D.Disk core) }
    ensures err { IfErr result (λ f. IsRefusedBoot M.Mechanism D.Disk core f.why f.mech f.disk) }
{
    match Machine::boot(alloc, core) {
        Ok(machine) => Ok(machine),
        Err(fail) => Err(fail),
    }
}

// The second machine, beside the first, which ends where there is none.
fn boot_second<M: Mechanism, D: Disk>(
    alloc: Global,
    a: Machine<M, D>,
    b: Core<M, D>,
) -> Result<Fleet<M, D>, FleetFail<M, D>>
    requires units { M.units b.mech ≡ b.units }
    requires recorded { EachLeft D.Disk b.disk (IsRecorded b.key b.units (M.motions b.mech)) }
    ensures a { IfOk result (λ f. f.a ≡ a) }
    ensures b { IfOk result (λ f. IsBooted M.Mechanism D.Disk b f.b) }
    ensures side { IfErr result (λ f. f.side ≡ B) }
    ensures ended { IfErr result (λ f. Ends M.Mechanism D.Disk a f.a.mech f.a.disk) }
    ensures refused { IfErr result (λ f. IsRefusedBoot M.Mechanism D.Disk b f.why f.b.mech f.b.disk) }
{
    match boot_one(alloc, b) {
        Ok(b) => Ok(Fleet { a, b }),
        Err(BootFail { why, mech, disk }) => Err(FleetFail {
            side: Side::B,
            why,
            a: Pair::of(a),
            b: Pair { mech, disk },
        }),
    }
}
