//! A simulated machine that has booted.

ghost use Rattle.xfs_guard.specs.Starts.{Starts};

use std::alloc::Global;
use std::test::Fail;
use xfs_disk::{Disk, MemDisk};
use xfs_guard::Core;
use xfs_machine::Machine;
use xfs_mech::{Mechanism, SimMech};
use xfs_simulated::{LIMITS, core_on, empty, mechanism, units};

fn boot(alloc: Global, core: Core<SimMech, MemDisk>) -> Result<Machine<SimMech, MemDisk>, Fail>
    requires starts { Starts ⟦<SimMech as Mechanism>⟧ ⟦<MemDisk as Disk>⟧ core }
{
    match Machine::boot(alloc, core) {
        Ok(machine) => Ok(machine),
        Err(fail) => Err(fail.why.into()),
    }
}

/// A machine with 100 notes each of EUR 10, EUR 20, EUR 50 and USD 20, over an empty disk.
pub fn machine(alloc: Global) -> Result<Machine<SimMech, MemDisk>, Fail> {
    let units = units().ok_or("the units")?;
    let mech = mechanism(alloc, &units, Vec::new(alloc)).ok_or("the mechanism")?;
    boot(alloc, core_on(mech, units, empty(alloc), LIMITS))
}
