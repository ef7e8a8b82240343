//! Guards over the mechanism of the simulated machine and an empty disk whose calls at given places fail.

ghost use Rattle.std.specs.Prelude.{◌≡◌, IfOk, []};
ghost use Rattle.xfs_base.specs.Causes.{IfTold};
ghost use Rattle.xfs_mech.specs.Sim.{units_of, motions_of};
ghost use Rattle.xfs_guard.specs.Starts.{Starts};
ghost use Rattle.xfs_guard.specs.declared.open.Open.TheVariants.{No};

use std::alloc::Global;
use std::test::Fail;
use xfs_base::UnitTable;
use xfs_disk::{Disk, FailDisk};
use xfs_guard::{Core, Guard};
use xfs_journal::Limits;
use xfs_mech::{Mechanism, SimMech};
use xfs_simulated::{LIMITS, OWN, core_failing, empty, mechanism};

/// A token of EUR 50 for the first nonce, under the key of the simulated machine. Its HMAC is that of Python's hmac and
/// hashlib.
pub const GENUINE: &str =
    "NONCE=E56A5D4028BD86530000000000000001,TOKENFORMAT=1,TOKENLENGTH=0164,DISPENSE1=50.00EUR,HMACSHA256=3D5C9E3C4712EA6A5C3803CA4CB0E54958CB4C8778ACBBB26FEA1F6935956AC2";

/// The units of the simulated machine.
pub fn units() -> Result<UnitTable, Fail> {
    Ok(xfs_simulated::units().ok_or("the units")?)
}

/// Its mechanism.
pub fn sim(alloc: Global, units: &UnitTable) -> Result<SimMech, Fail>
    ensures units { IfOk result (λ mech. units_of mech ≡ units.now) }
    ensures fresh { IfOk result (λ mech. motions_of mech ≡ []) }
{
    Ok(mechanism(alloc, units, Vec::new(alloc)).ok_or("the mechanism")?)
}

// A guard over a core whose disk was written by nobody.
fn boot<M: Mechanism>(alloc: Global, core: Core<M, FailDisk>) -> Result<Guard<M, FailDisk>, Fail>
    requires starts { Starts M.Mechanism ⟦<FailDisk as Disk>⟧ core }
    ensures { IfOk result (λ g. g.state.open_order ≡ No) }
{
    let Core {
        mech,
        disk,
        key,
        seed,
        units,
        limits,
        life: _,
    } = core;
    match Guard::boot(alloc, mech, disk, key, seed, units, limits) {
        Ok(guard) => Ok(guard),
        Err(fail) => Err(fail.why.into()),
    }
}

/// A guard over this mechanism, within these limits, whose disk fails in these of its calls.
pub fn guard_over<M: Mechanism>(
    alloc: Global,
    mech: M,
    units: UnitTable,
    limits: Limits,
    failing: &[u64],
) -> Result<Guard<M, FailDisk>, Fail>
    requires fresh { IfTold (M.motions mech) (λ motions. motions ≡ []) }
    requires units { M.units mech ≡ units }
    ensures { IfOk result (λ g. g.state.open_order ≡ No) }
{
    let failing = Vec::from_slice(alloc, failing)?;
    boot(
        alloc,
        core_failing(OWN, mech, units, empty(alloc), limits, failing),
    )
}

/// The same over the simulated machine and its limits.
pub fn guard_on(alloc: Global, failing: &[u64]) -> Result<Guard<SimMech, FailDisk>, Fail>
    ensures { IfOk result (λ g. g.state.open_order ≡ No) }
{
    let units = units()?;
    let mech = sim(alloc, &units)?;
    guard_over(alloc, mech, units, LIMITS, failing)
}
