//! The machine that goes on where a journal leaves it.

ghost use Rattle.std.specs.Prelude.{◌≡◌, ◌≢◌, ◌⊎◌, ◌+◌, ◌≤◌, length, IfOk, IfSome};
ghost use Rattle.xfs_base.specs.Causes.{Rose};
ghost use Rattle.xfs_journal.specs.Held.{OfJournal};
ghost use Rattle.xfs_journal.specs.declared.faults.MountFault.TheVariants.{Memory as NoMemory};
ghost use Rattle.xfs_mech.specs.Sim.{failures_of, faults_of, motions_of as done_by, places_of, units_of};
ghost use Rattle.xfs_simulated.specs.Resumed.{GoesOnAs, GoesOnFrom, IsResumed};
ghost use Rattle.xfs_simulated.specs.Simulated.{four_units, full_limits};

use crate::leaving::places_left;
use crate::machine::{LIMITS, places, units};
use crate::secret::Secrets;
use std::alloc::Global;
use xfs_base::{Memory, Places, UnitTable};
use xfs_disk::Disk;
use xfs_guard::{Core, motions_of};
use xfs_journal::{Journal, MountFail, MountFault, Rec};
use xfs_mech::{Fault, Motion, SimMech, places_fit};

/// For how many milliseconds a nonce lives in a server.
pub const LIFE: u32 = 600_000;

/// A core whose mechanism goes on where the journal on the disk leaves it: with the motions that the records from the last
/// boot record on stand for, and the notes where they leave them, and with these faults to come. Where they leave them
/// nowhere, and where the disk's bytes can't be used, each unit has 100 notes. It is refused only for want of memory.
pub fn resume_core<D: Disk>(
    alloc: Global,
    disk: D,
    secrets: Secrets,
    faults: Vec<Fault>,
) -> Result<Core<SimMech, D>, Memory>
    ensures secrets { IfOk result (λ core. (core.key ≡ secrets.key) × (core.seed ≡ secrets.seed)) }
    ensures set { IfOk result (λ core. (core.units ≡ four_units) × (core.limits ≡ full_limits) × (core.life ≡ 600000)) }
    ensures units { IfOk result (λ core. units_of core.mech ≡ core.units) }
    ensures faults { IfOk result (λ core. (faults_of core.mech ≡ faults.items) × (failures_of core.mech ≡ 0)) }
    ensures resumed { IfOk result (λ core. OfJournal (D.held disk) (λ records. Rose (D.faults disk) (D.faults core.disk) ⊎ IsResumed records core.mech)) }
{
    let Secrets { key, seed } = secrets;
    let units = units().ok_or(Memory)?;
    let (disk, told) = read_back(alloc, &units, disk)?;
    let mech = resume_mech(&units, told, faults).ok_or(Memory)?;
    Ok(Core {
        mech,
        disk,
        key,
        seed,
        units,
        limits: LIMITS,
        life: LIFE,
    })
}

// What a journal tells of the mechanism.
#[derive(Drop)]
struct Told {
    motions: Vec<Motion>,
    places: Places,
}

// None where the notes pass the limits of the units, which they never do.
fn resume_mech(units: &UnitTable, told: Told, faults: Vec<Fault>) -> Option<SimMech>
    ensures units { IfSome result (λ mech. units_of mech ≡ units.now) }
    ensures told { IfSome result (λ mech. (done_by mech ≡ told.motions.items) × (places_of mech ≡ told.places)) }
    ensures faults { IfSome result (λ mech. (faults_of mech ≡ faults.items) × (failures_of mech ≡ 0)) }
{
    if places_fit(units, &told.places) {
        Some(SimMech::resume(units.copied(), told.places, told.motions, faults))
    } else {
        None
    }
}

// Reads the journal of a disk, and hands the disk back.
fn read_back<D: Disk>(alloc: Global, units: &UnitTable, disk: D) -> Result<(D, Told), Memory>
    ensures { IfOk result (λ back. OfJournal (D.held disk) (λ records. Rose (D.faults disk) (D.faults back.0) ⊎ GoesOnAs units.now back.1 records)) }
{
    match Journal::mount(alloc, disk, LIMITS) {
        Ok(journal) => {
            let told = told_by(alloc, units, journal.base(), journal.records())?;
            Ok((journal.end(), told))
        }
        Err(MountFail { why, disk }) => Ok((disk, tell_none(alloc, why)?)),
    }
}

// Bytes that can't be used tell nothing.
fn tell_none(alloc: Global, why: MountFault) -> Result<Told, Memory>
    ensures { IfOk result (λ _. why ≢ NoMemory) }
{
    match why {
        MountFault::Memory => Err(Memory),
        MountFault::NotJournal { .. } | MountFault::Disk => Ok(Told {
            motions: Vec::new(alloc),
            places: places(),
        }),
    }
}

// What the records that are kept behind a base tell.
fn told_by(alloc: Global, units: &UnitTable, base: u64, kept: &[Rec]) -> Result<Told, Memory>
    requires room { base + length kept.now ≤ 18446744073709551615 }
    ensures { IfOk result (λ told. GoesOnFrom units.now base kept.now told.motions.items told.places) }
{
    let motions = motions_of(alloc, base, kept)?;
    let places = match places_left(alloc, units, kept)? {
        Some(left) => left,
        None => places(),
    };
    Ok(Told { motions, places })
}
