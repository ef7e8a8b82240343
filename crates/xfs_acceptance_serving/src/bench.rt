//! The simulated machine, and what is done at its devices.

ghost use Rattle.std.specs.Prelude.{IfOk};
ghost use Rattle.xfs_guard.specs.Starts.{Starts};

use std::alloc::Global;
use std::test::Fail;
use xfs_disk::{Disk, FailDisk};
use xfs_guard::Core;
use xfs_machine::Machine;
use xfs_mech::{KeyName, Mechanism, SimMech, SimWatch, Touch, Tracks};
use xfs_simulated::{LIMITS, OWN, core_failing, empty, mechanism, units};

/// 100 notes each of EUR 10, EUR 20, EUR 50 and USD 20, over an empty disk whose call at this place fails, counted from 1.
pub fn core(alloc: Global, failing: u64) -> Result<Core<SimMech, FailDisk>, Fail>
    ensures starts { IfOk result (Starts ⟦<SimMech as Mechanism>⟧ ⟦<FailDisk as Disk>⟧) }
{
    let units = units().ok_or("the units")?;
    let mech = mechanism(alloc, &units, Vec::new(alloc)).ok_or("the mechanism")?;
    let failing = Vec::from_slice(alloc, &[failing])?;
    Ok(core_failing(OWN, mech, units, empty(alloc), LIMITS, failing))
}

fn boot(alloc: Global, core: Core<SimMech, FailDisk>) -> Result<Machine<SimMech, FailDisk>, Fail>
    requires starts { Starts ⟦<SimMech as Mechanism>⟧ ⟦<FailDisk as Disk>⟧ core }
{
    match Machine::boot(alloc, core) {
        Ok(machine) => Ok(machine),
        Err(fail) => Err(fail.why.into()),
    }
}

/// A machine over a disk none of whose calls fails.
pub fn machine(alloc: Global) -> Result<Machine<SimMech, FailDisk>, Fail> {
    boot(alloc, core(alloc, 0)?)
}

/// A watch that tells of a card or of a key as soon as it is asked, or fails.
pub fn watch_of(alloc: Global, told: &str) -> Result<SimWatch, Fail> {
    let mut touches = Vec::new(alloc);
    let mut failing = Vec::new(alloc);
    match told {
        "card" => touches.push(Touch::CardIn(tracks(alloc)?))?,
        "one" => touches.push(Touch::Key(KeyName::One))?,
        _ => failing.push(1)?,
    }
    Ok(SimWatch::new(touches, failing))
}

fn tracks(alloc: Global) -> Result<Tracks, Fail> {
    let track = Vec::from_slice(alloc, b";1234")?;
    Ok(Tracks::new(None, Some(track), None).ok_or("the tracks")?)
}
