//! Two machines side by side: what comes to one, and what is refused it, leaves the other as it is.

ghost use Rattle.std.specs.Prelude.{◌≡◌, ℕ, List, IfOk, Some};
ghost use Rattle.xfs_disk.specs.MemDisk.{IsImage as MayBe};
ghost use Rattle.xfs_disk.specs.Wrapped.{inner_of};
ghost use Rattle.xfs_guard.specs.Recorded.{IsRecorded};
ghost use Rattle.xfs_guard.specs.Stored.{EachLeft};
ghost use Rattle.xfs_journal.specs.Image.{StandsFor};
ghost use Rattle.xfs_journal.specs.declared.record.Rec.{Rec};
ghost use Rattle.xfs_mech.specs.Sim.{units_of, motions_of};

use crate::guard_bench::{sim, units};
use std::alloc::Global;
use std::test::Fail;
use xfs_base::Service;
use xfs_disk::{Disk, FailDisk};
use xfs_fleet::{Fleet, FleetFail, Pair, Side};
use xfs_guard::{BootFault, Core};
use xfs_mech::{Mechanism, SimMech};
use xfs_simulated::{LIMITS, SEED, Secrets, core_failing, empty};

// So many bytes has the journal of a machine that booted once, and of one that booted twice.
const ONE_BOOT: usize = 213;

const TWO_BOOTS: usize = 417;

// A machine's core with a key of its own, over an empty disk whose calls at these places fail.
fn core(alloc: Global, key: u8, failing: &[u64]) -> Result<Core<SimMech, FailDisk>, Fail>
    ensures units { IfOk result (λ core. units_of core.mech ≡ core.units) }
    ensures starts { IfOk result (λ core. EachLeft ⟦<FailDisk as Disk>⟧ core.disk (IsRecorded core.key core.units (Some (motions_of core.mech)))) }
{
    let secrets = Secrets {
        key: [key; 32],
        seed: SEED,
    };
    let units = units()?;
    let mech = sim(alloc, &units)?;
    let failing = Vec::from_slice(alloc, failing)?;
    Ok(core_failing(secrets, mech, units, empty(alloc), LIMITS, failing))
}

// A fleet whose machine of a side begins anew, where one is named.
fn begun<M: Mechanism, D: Disk>(
    alloc: Global,
    a: Core<M, D>,
    b: Core<M, D>,
    restart: Option<Side>,
) -> Result<Fleet<M, D>, FleetFail<M, D>>
    requires a_units { M.units a.mech ≡ a.units }
    requires a_starts { EachLeft D.Disk a.disk (IsRecorded a.key a.units (M.motions a.mech)) }
    requires b_units { M.units b.mech ≡ b.units }
    requires b_starts { EachLeft D.Disk b.disk (IsRecorded b.key b.units (M.motions b.mech)) }
{
    match (Fleet::boot(alloc, a, b), restart) {
        (Ok(fleet), Some(side)) => fleet.restart(side),
        (fleet, _) => fleet,
    }
}

// What is refused it, at which side, and the disks that come back at its end.
fn outcome<M: Mechanism, D: Disk>(
    fleet: Result<Fleet<M, D>, FleetFail<M, D>>,
) -> (Option<(Side, BootFault)>, D, D) {
    match fleet {
        Ok(fleet) => {
            let (a, b) = fleet.end();
            (None, disk_of(a), disk_of(b))
        }
        Err(FleetFail { side, why, a, b }) => (Some((side, why)), disk_of(a), disk_of(b)),
    }
}

fn disk_of<M: Mechanism, D: Disk>(pair: Pair<M, D>) -> D {
    let Pair { mech, disk } = pair;
    drop(mech);
    disk
}

// The same of two machines whose disks fail in these of their calls: whether the second is refused, and why; and the
// lengths of the journals.
fn lengths(
    alloc: Global,
    failing: (&[u64], &[u64]),
    restart: Option<Side>,
) -> Result<(Option<(bool, BootFault)>, usize, usize), Fail> {
    let a = core(alloc, 0x0b, failing.0)?;
    let b = core(alloc, 0x0c, failing.1)?;
    let (refused, a, b) = outcome(begun(alloc, a, b, restart));
    let refused = refused.map(|(side, why)| (matches!(side, Side::B), why));
    Ok((refused, a.inner().bytes().len(), b.inner().bytes().len()))
}

// The boot makes eight calls of the disk, and the restart's first is the ninth.
#[test]
fn a_boot_and_a_restart_are_of_one_side_alone(rt: HostRuntime) -> Result<(), Fail> {
    let alloc = rt.alloc();
    let first = Some((false, BootFault::Disk));
    let second = Some((true, BootFault::Disk));
    assert!(rt; lengths(alloc, (&[], &[]), None)? == (None, ONE_BOOT, ONE_BOOT));
    assert!(rt; lengths(alloc, (&[], &[9]), Some(Side::A))? == (None, TWO_BOOTS, ONE_BOOT));
    assert!(rt; lengths(alloc, (&[9], &[]), Some(Side::B))? == (None, ONE_BOOT, TWO_BOOTS));
    assert!(rt; lengths(alloc, (&[1], &[]), None)? == (first, 0, 0));
    assert!(rt; lengths(alloc, (&[], &[1]), None)? == (second, ONE_BOOT, 0));
    assert!(rt; lengths(alloc, (&[9], &[]), Some(Side::A))? == (first, ONE_BOOT, ONE_BOOT));
    assert!(rt; lengths(alloc, (&[], &[9]), Some(Side::B))? == (second, ONE_BOOT, ONE_BOOT));
    Ok(())
}

// How many connections are open at each side once one joined at the first, and one at the second, and once that of the
// first is gone. Each machine gives its first connection the same number.
fn open_counts<M: Mechanism, D: Disk>(fleet: &mut Fleet<M, D>) -> Option<[u32; 4]> {
    let first = fleet.pick(Side::A).join(Service::Cash).ok()?;
    let early = fleet.pick(Side::B).open_count();
    let second = fleet.pick(Side::B).join(Service::Cash).ok()?;
    if first.client() != second.client() {
        return None;
    }
    let joined = fleet.pick(Side::A).open_count();
    fleet.pick(Side::A).leave(first);
    let left = fleet.pick(Side::A).open_count();
    Some([early, joined, left, fleet.pick(Side::B).open_count()])
}

fn counted<M: Mechanism, D: Disk>(
    fleet: Result<Fleet<M, D>, FleetFail<M, D>>,
) -> (Option<[u32; 4]>, D, D) {
    match fleet {
        Ok(mut fleet) => {
            let counts = open_counts(&mut fleet);
            let (_, a, b) = outcome(Ok(fleet));
            (counts, a, b)
        }
        Err(fail) => {
            let (_, a, b) = outcome(Err(fail));
            (None, a, b)
        }
    }
}

#[test]
fn each_machine_of_a_fleet_has_clients_of_its_own(rt: HostRuntime) -> Result<(), Fail> {
    let alloc = rt.alloc();
    let a = core(alloc, 0x0b, &[])?;
    let b = core(alloc, 0x0c, &[])?;
    let (counts, a, b) = counted(begun(alloc, a, b, None));
    assert!(rt; counts == Some([0, 1, 0, 1]));
    drop(a);
    drop(b);
    Ok(())
}
