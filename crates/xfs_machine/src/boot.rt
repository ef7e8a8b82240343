//! How a machine begins.

ghost use Rattle.std.specs.Prelude.{◌≡◌, ◌≢◌, length, IfOk, IfErr};
ghost use Rattle.xfs_guard.specs.Entries.{at_entry};
ghost use Rattle.xfs_guard.specs.Outcomes.{BootsGuard, RefusesBoot};
ghost use Rattle.xfs_guard.specs.Recorded.{IsRecorded};
ghost use Rattle.xfs_guard.specs.Stored.{EachLeft};
ghost use Rattle.xfs_guard.specs.declared.open.Open.TheVariants.{No};
ghost use Rattle.xfs_dispenser.specs.Seen.{seen};
ghost use Rattle.xfs_machine.specs.MachineView.{guard_of};
ghost use Rattle.xfs_model.specs.State.{bare};
ghost use Rattle.xfs_model.specs.Told.{HasMark};

use crate::dispenser::Dispenser;
use crate::machine::Machine;
use std::alloc::Global;
use xfs_base::Moment;
use xfs_disk::Disk;
use xfs_guard::{BootFail, Core, Guard};
use xfs_mech::Mechanism;
use xfs_traffic::{Devices, Traffic};

impl<M: Mechanism, D: Disk> Machine<M, D> {
    /// A machine over this mechanism and the journal of this disk, which gets a boot record, with no connection,
    /// command, card, entry or exchange. A refused boot hands mechanism and disk back, as the guard's does.
    pub fn boot(alloc: Global, core: Core<M, D>) -> Result<Machine<M, D>, BootFail<M, D>>
        requires units { M.units core.mech ≡ core.units }
        requires recorded { EachLeft D.Disk core.disk (IsRecorded core.key core.units (M.motions core.mech)) }
        ensures bare { IfOk result (λ m. m.state ≡ bare m.state.seen core.life (length m.state.seen.guard.records)) }
        ensures tied { IfOk result (λ m. m.state.seen.disk_faults ≡ D.faults m.disk) }
        ensures ok { IfOk result (λ m. BootsGuard D.Disk (at_entry M.Mechanism D.Disk core) core.disk (guard_of m)) }
        ensures mech { IfErr result (λ f. f.mech ≡ core.mech) }
        ensures refuses { IfErr result (λ f. RefusesBoot D.Disk (at_entry M.Mechanism D.Disk core) core.disk f.why f.disk) }
    {
        let Core {
            mech,
            disk,
            key,
            seed,
            units,
            limits,
            life,
        } = core;
        match Guard::boot(alloc, mech, disk, key, seed, units, limits) {
            Ok(guard) => Ok(Machine::over_guard(alloc, guard, life)),
            Err(fail) => Err(fail),
        }
    }

    // A machine over a guard whose last record is its boot record, with no order open.
    pub(crate) fn over_guard(alloc: Global, guard: Guard<M, D>, life: u32) -> Machine<M, D>
        requires there { length guard.state.records ≢ 0 }
        requires none { guard.state.open_order ≡ No }
        requires mark { HasMark (seen D.Disk guard) }
        ensures bare { result.state ≡ bare (seen D.Disk guard) life (length guard.state.records) }
        ensures disk { result.disk ≡ guard.disk }
    {
        let boot = newest(&guard);
        Machine {
            alloc,
            dispenser: Dispenser {
                guard,
                life,
                issued: Moment(0),
                exchange: false,
            },
            boot,
            moment: Moment(0),
            given: 0,
            devices: Devices::new(),
            traffic: Traffic::new(alloc),
        }
    }
}

// The number of the newest record of a guard's journal: memory may not have its first ones.
pub(crate) fn newest<M: Mechanism, D: Disk>(guard: &Guard<M, D>) -> u64
    ensures { result ≡ length guard.now.state.records }
{
    guard.base() + guard.records().len() as u64
}
