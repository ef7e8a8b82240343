//! The bench of a server.

ghost use Rattle.std.specs.Prelude.{◌≡◌, None, IfOk};
ghost use Rattle.xfs_guard.specs.Starts.{Starts};
ghost use Rattle.xfs_mech.specs.Sim.{failures_of, faults_of, units_of};
ghost use Rattle.xfs_simulated.specs.News.{HasNews};
ghost use Rattle.xfs_simulated.specs.Simulated.{four_units, full_limits};
ghost use Rattle.xfs_start.specs.EitherDisks.{ResumesFrom, with_disk};
ghost use Rattle.xfs_start.specs.declared.either_disk.EitherDisk.TheVariants as Kind;

use crate::either_disk::EitherDisk;
use std::alloc::Global;
use xfs_base::Memory;
use xfs_disk::{Disk, FailDisk};
use xfs_guard::{Bench, Core};
use xfs_mech::{Mechanism, SimMech, SimWatch};
use xfs_simulated::{Secrets, Setup, resume_core, second_core};

/// The simulated machine that goes on where the journal on the disk leaves it, to whose devices the news and faults of the
/// setup come. A nonce lives for ten minutes. Beside it stands the second machine of `fleet`, whose disk is in memory.
pub fn server_bench<D: Disk>(
    alloc: Global,
    disk: D,
    secrets: Secrets,
    setup: Setup,
) -> Result<Bench<SimMech, EitherDisk<D, FailDisk>, SimWatch, SimWatch>, Memory>
    ensures secrets { IfOk result (λ bench. (bench.core.key ≡ secrets.key) × (bench.core.seed ≡ secrets.seed)) }
    ensures set { IfOk result (λ bench. (bench.core.units ≡ four_units) × (bench.core.limits ≡ full_limits) × (bench.core.life ≡ 600000)) }
    ensures table { IfOk result (λ bench. units_of bench.core.mech ≡ bench.core.units) }
    ensures resumed { IfOk result (λ bench. ResumesFrom D.Disk ⟦<FailDisk as Disk>⟧ disk bench.core) }
    ensures faults { IfOk result (λ bench. (faults_of bench.core.mech ≡ setup.faults.items) × (failures_of bench.core.mech ≡ 0)) }
    ensures news { IfOk result (λ bench. HasNews setup.cards.items bench.cards × HasNews setup.keys.items bench.keys) }
    ensures untold { IfOk result (λ bench. ((d : D) → D.held d ≡ None) → Starts ⟦<SimMech as Mechanism>⟧ ⟦<EitherDisk<D, FailDisk> as Disk>⟧ bench.core) }
    ensures second { IfOk result (λ bench. Starts ⟦<SimMech as Mechanism>⟧ ⟦<EitherDisk<D, FailDisk> as Disk>⟧ bench.second) }
{
    let core = resume_core(alloc, disk, secrets, setup.faults)?;
    let second = second_core(alloc).ok_or(Memory)?;
    Ok(Bench {
        core: over_file(core),
        cards: SimWatch::new(setup.cards, Vec::new(alloc)),
        keys: SimWatch::new(setup.keys, Vec::new(alloc)),
        second: over_memory(second),
    })
}

// A core whose disk is over a file.
fn over_file<D: Disk>(core: Core<SimMech, D>) -> Core<SimMech, EitherDisk<D, FailDisk>>
    ensures { result ≡ with_disk core (Kind.File core.disk) }
{
    let Core {
        mech,
        disk,
        key,
        seed,
        units,
        limits,
        life,
    } = core;
    Core {
        mech,
        disk: EitherDisk::File(disk),
        key,
        seed,
        units,
        limits,
        life,
    }
}

// A core whose disk is in memory.
fn over_memory<D: Disk>(core: Core<SimMech, FailDisk>) -> Core<SimMech, EitherDisk<D, FailDisk>>
    ensures { result ≡ with_disk core (Kind.Memory core.disk) }
{
    let Core {
        mech,
        disk,
        key,
        seed,
        units,
        limits,
        life,
    } = core;
    Core {
        mech,
        disk: EitherDisk::Memory(disk),
        key,
        seed,
        units,
        limits,
        life,
    }
}
