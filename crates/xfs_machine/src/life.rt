//! The end of a live nonce whose life is over.

ghost use Rattle.std.specs.Prelude.{◌≡◌, ◌≢◌, ◌+◌, ◌==◌, ◌&&◌, not, nat_le, None, OnErr, OnOk};
ghost use Rattle.xfs_dispenser.specs.Seen.{seen};
ghost use Rattle.xfs_guard.specs.Fits.{unfit};
ghost use Rattle.xfs_guard.specs.Keeps.{Keeps, NoEntry, Proceeds};
ghost use Rattle.xfs_guard.specs.Nonce.{live_in};
ghost use Rattle.xfs_guard.specs.Upheld.{IsUpheld};
ghost use Rattle.xfs_guard.specs.declared.open.Open.TheVariants.{No};
ghost use Rattle.xfs_machine.specs.Changes.{LifeEnds};
ghost use Rattle.xfs_machine.specs.Parts.{at_dispenser};
ghost use Rattle.xfs_model.specs.State.{State};
ghost use Rattle.xfs_model.specs.Work.{is_life_over};

use crate::dispenser::Dispenser;
use std::alloc::Global;
use xfs_base::{Memory, Moment, Service};
use xfs_disk::Disk;
use xfs_guard::{Deny, Guard};
use xfs_mech::Mechanism;
use xfs_traffic::{Connections, Ending, nonce_ended};

/// Whether a nonce lives whose life is over, and the journal takes more records. Most lives have no end, so that
/// the life is looked at first.
pub(crate) fn is_life_over<M: Mechanism, D: Disk>(dispenser: &Dispenser<M, D>, now: Moment) -> bool
    ensures { (s : State) → result ≡ is_life_over (at_dispenser D.Disk s now dispenser.now s.queues) }
{
    if !is_long_ago(dispenser.life, dispenser.issued, now) {
        return false;
    }
    let lives = dispenser.guard.live().is_some();
    let fits = dispenser.guard.unfit().is_none();
    lives & fits
}

// Ends the live nonce, and announces it where it ended. The announcement is made first, since it alone
// wants memory.
pub(crate) fn expire<M: Mechanism, D: Disk>(
    alloc: Global,
    guard: &mut Guard<M, D>,
    connections: &mut Connections,
) -> Result<(), Memory>
    requires none { guard.old.state.open_order ≡ No }
    requires live { live_in guard.old.state.boot_missing guard.old.state.records ≢ None }
    requires fit { unfit guard.old.state ≡ None }
    ensures ends { OnOk result (LifeEnds (seen D.Disk guard.old) (seen D.Disk guard.new) connections.old connections.new) }
    ensures memory { OnErr result ((guard.new ≡ guard.old) × (connections.new ≡ connections.old)) }
    ensures keeps { IsUpheld D.Disk guard.old → Keeps D.Disk NoEntry guard.old guard.new }
    ensures proceeds { Proceeds D.Disk guard.old guard.new }
{
    let frame = nonce_ended(alloc, Ending::Expired)?;
    connections.announce(alloc, Service::Cash, frame.list())?;
    match guard.expire() {
        Ok(()) => Ok(()),
        Err(deny) => {
            connections.take_back(Service::Cash);
            if deny == Deny::Memory {
                return Err(Memory);
            }
            Ok(())
        }
    }
}

// A life has an end, and began so long ago.
fn is_long_ago(life: u32, issued: Moment, now: Moment) -> bool
    ensures { result ≡ (not (life == 0) && nat_le (issued.0 + life) now.0) }
{
    life != 0 && issued.0 <= now.0 && now.0 - issued.0 >= u64::from(life)
}
