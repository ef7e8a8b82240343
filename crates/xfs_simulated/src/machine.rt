ghost use Rattle.std.specs.Prelude.{◌≡◌, List, [], replicate, IfSome};
ghost use Rattle.xfs_disk.specs.MemDisk.{bytes_of, steps_of};
ghost use Rattle.xfs_disk.specs.Wrapped.{failing_calls, inner_of};
ghost use Rattle.xfs_guard.specs.Starts.{Starts};
ghost use Rattle.xfs_journal.specs.Image.{IsImage};
ghost use Rattle.xfs_journal.specs.declared.record.Rec.{Rec};
ghost use Rattle.xfs_mech.specs.SimWatch.{touches_of};
ghost use Rattle.xfs_mech.specs.Sim.{units_of, places_of, motions_of, faults_of, failures_of};
ghost use Rattle.xfs_simulated.specs.Simulated.{four_units, full_limits, hundred_each};
ghost use Rattle.xfs_simulated.specs.Unused.{IsUnused};

use crate::secret::{OWN, SECOND, Secrets};
use std::alloc::Global;
use xfs_base::{Counts, Currency, NoteKind, Places, UnitTable};
use xfs_disk::{Disk, FailDisk, MemDisk};
use xfs_guard::{Bench, Core};
use xfs_journal::Limits;
use xfs_mech::{Fault, Mechanism, SimMech, SimWatch, places_fit};

/// The key of the tokens' HMAC: 32 bytes 0x0b.
pub const KEY: [u8; 32] = [0x0b; 32];

/// The seed of the nonces: 32 bytes 0.
pub const SEED: [u8; 32] = [0; 32];

/// The full limits of a journal.
pub const LIMITS: Limits = Limits {
    records: 1_000_000,
    bytes: 17_179_869_184,
};

fn kind(letters: &[u8], value: u32) -> Option<NoteKind>
    ensures { IfSome result (λ k. k ≡ record { currency = letters.now; value = value }) }
{
    let currency = Currency::new(letters)?;
    Some(NoteKind { currency, value })
}

/// EUR 10, EUR 20, EUR 50 and USD 20. It is never None.
pub fn units() -> Option<UnitTable>
    ensures { IfSome result (λ units. units ≡ four_units) }
{
    UnitTable::new(&[
        kind(b"EUR", 10)?,
        kind(b"EUR", 20)?,
        kind(b"EUR", 50)?,
        kind(b"USD", 20)?,
    ])
}

/// 100 notes in each of the four units, and none elsewhere.
pub fn places() -> Places
    ensures { result ≡ hundred_each }
{
    let none = Counts([0; 8]);
    Places {
        units: Counts([100, 100, 100, 100, 0, 0, 0, 0]),
        transport: none,
        outlet: none,
        taken: none,
        retracted: none,
        rejected: none,
    }
}

/// A mechanism that did nothing yet, with these faults to come. None where its notes pass the limits of the units,
/// which those of `units` never do.
pub fn mechanism(alloc: Global, units: &UnitTable, faults: Vec<Fault>) -> Option<SimMech>
    ensures units { IfSome result (λ mech. units_of mech ≡ units.now) }
    ensures places { IfSome result (λ mech. places_of mech ≡ hundred_each) }
    ensures motions { IfSome result (λ mech. motions_of mech ≡ []) }
    ensures faults { IfSome result (λ mech. (faults_of mech ≡ faults.items) × (failures_of mech ≡ 0)) }
{
    let places = places();
    if places_fit(units, &places) {
        Some(SimMech::new(alloc, units.copied(), places, faults))
    } else {
        None
    }
}

/// A disk in memory to which nothing was written.
pub fn empty(alloc: Global) -> MemDisk
    ensures empty { bytes_of result ≡ [] }
    ensures settled { steps_of result ≡ [] }
    ensures none { (records : List Rec) → ¬ IsImage (bytes_of result) records }
{
    MemDisk::new(alloc, Vec::new(alloc))
}

/// What the top call is handed, over a mechanism that did nothing yet and a disk that has no journal.
pub fn core_on<M: Mechanism>(
    mech: M,
    units: UnitTable,
    disk: MemDisk,
    limits: Limits,
) -> Core<M, MemDisk>
    requires { IsUnused M.Mechanism mech units disk }
    ensures handed { (result.mech ≡ mech) × (result.disk ≡ disk) × (result.units ≡ units) × (result.limits ≡ limits) }
    ensures secrets { (result.key ≡ replicate 32 0x0b) × (result.seed ≡ replicate 32 0) × (result.life ≡ 0) }
    ensures starts { Starts M.Mechanism ⟦<MemDisk as Disk>⟧ result }
{
    core_under(OWN, mech, units, disk, limits)
}

/// A core with these secrets, as `core_on` has one with its own. A nonce lives without an end.
pub fn core_under<M: Mechanism>(
    secrets: Secrets,
    mech: M,
    units: UnitTable,
    disk: MemDisk,
    limits: Limits,
) -> Core<M, MemDisk>
    requires { IsUnused M.Mechanism mech units disk }
    ensures handed { (result.mech ≡ mech) × (result.disk ≡ disk) × (result.units ≡ units) × (result.limits ≡ limits) }
    ensures secrets { (result.key ≡ secrets.key) × (result.seed ≡ secrets.seed) × (result.life ≡ 0) }
    ensures starts { Starts M.Mechanism ⟦<MemDisk as Disk>⟧ result }
{
    let Secrets { key, seed } = secrets;
    Core {
        mech,
        disk,
        key,
        seed,
        units,
        limits,
        life: 0,
    }
}

/// A core as of `core_under`, over a disk whose calls at these places fail.
pub fn core_failing<M: Mechanism>(
    secrets: Secrets,
    mech: M,
    units: UnitTable,
    disk: MemDisk,
    limits: Limits,
    failing: Vec<u64>,
) -> Core<M, FailDisk>
    requires { IsUnused M.Mechanism mech units disk }
    ensures handed { (result.mech ≡ mech) × (inner_of result.disk ≡ disk) × (result.units ≡ units) × (result.limits ≡ limits) }
    ensures failing { failing_calls result.disk ≡ failing.items }
    ensures secrets { (result.key ≡ secrets.key) × (result.seed ≡ secrets.seed) × (result.life ≡ 0) }
    ensures starts { Starts M.Mechanism ⟦<FailDisk as Disk>⟧ result }
{
    let Core {
        mech,
        disk,
        key,
        seed,
        units,
        limits,
        life,
    } = core_under(secrets, mech, units, disk, limits);
    Core {
        mech,
        disk: FailDisk::new(disk, failing),
        key,
        seed,
        units,
        limits,
        life,
    }
}

/// The second machine of `fleet`: like the first, with its own key and seed, over an empty disk in memory. Nothing of it
/// fails, and it is never None.
pub fn second_core(alloc: Global) -> Option<Core<SimMech, FailDisk>>
    ensures secrets { IfSome result (λ core. (core.key ≡ replicate 32 0x0c) × (core.seed ≡ replicate 32 0x01) × (core.life ≡ 0)) }
    ensures units { IfSome result (λ core. (core.units ≡ four_units) × (units_of core.mech ≡ core.units)) }
    ensures places { IfSome result (λ core. (places_of core.mech ≡ hundred_each) × (motions_of core.mech ≡ [])) }
    ensures sound { IfSome result (λ core. (faults_of core.mech ≡ []) × (failing_calls core.disk ≡ [])) }
    ensures limits { IfSome result (λ core. core.limits ≡ full_limits) }
    ensures starts { IfSome result (Starts ⟦<SimMech as Mechanism>⟧ ⟦<FailDisk as Disk>⟧) }
{
    let units = units()?;
    let mech = mechanism(alloc, &units, Vec::new(alloc))?;
    let none = Vec::new(alloc);
    Some(core_failing(SECOND, mech, units, empty(alloc), LIMITS, none))
}

/// A bench over these two cores, whose card slot and key pad have no news.
pub fn quiet_bench<M: Mechanism, D: Disk>(
    alloc: Global,
    core: Core<M, D>,
    second: Core<M, D>,
) -> Bench<M, D, SimWatch, SimWatch>
    ensures cores { (result.core ≡ core) × (result.second ≡ second) }
    ensures quiet { (touches_of result.cards ≡ []) × (touches_of result.keys ≡ []) }
{
    Bench {
        core,
        cards: SimWatch::new(Vec::new(alloc), Vec::new(alloc)),
        keys: SimWatch::new(Vec::new(alloc), Vec::new(alloc)),
        second,
    }
}
