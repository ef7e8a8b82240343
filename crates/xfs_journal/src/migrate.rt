//! Carrying a file of version 1 over to version 2, by its eighth byte.
ghost use Rattle.std.specs.Prelude.{◌≡◌, ◌≢◌, ◌<◌, [], ◌∷◌, false, None, Some, option_map, length, slice_get, IfOk, IsErr, OnOk};
ghost use Rattle.xfs_base.specs.Causes.{IfTold};
ghost use Rattle.xfs_disk.specs.Disk.{overlaid, Only};
ghost use Rattle.xfs_journal.specs.JournalView.{HasVersion, IsKept, IsInDoubt, IsRenewed};
ghost use Rattle.xfs_journal.specs.Outcomes.{DiskMayFail, SparesList};
ghost use Rattle.xfs_journal.specs.Paging.{IsQuiet, OnlyReads};
ghost use Rattle.xfs_disk.specs.Moments.{EachImage};
ghost use Rattle.xfs_journal.specs.Image.{StandsFor};

use crate::gate::write_synced;
use crate::recent::Recent;
use crate::scan::VERSION;
use xfs_base::Failed;
use xfs_disk::Disk;

// The version that is carried over: the digit 1.
const OLD: u8 = 0x31;

// The eighth byte, which is read where it isn't known.
fn version_of<D: Disk>(disk: &mut D, known: Option<u8>) -> Result<u8, Failed>
    requires known { HasVersion (D.held disk.old) known }
    requires long { IfTold (D.held disk.old) (λ all. 7 < length all) }
    ensures version { IfOk result (λ v. HasVersion (D.held disk.old) (Some v)) }
    ensures reads { OnlyReads D.Disk disk.old disk.new (IsErr result) }
{
    if let Some(version) = known {
        return Ok(version);
    }
    let mut byte = [0];
    disk.read(7, &mut byte)?;
    Ok(byte[0])
}

// Writes the version 2, and syncs it.
fn renew<D: Disk>(disk: &mut D, recent: &Recent, gate: u64) -> Result<(), Failed>
    requires kept { IsKept (D.held disk.old) (D.images disk.old) recent.now.all false gate }
    ensures kept { IsKept (D.held disk.new) (D.images disk.new) recent.now.all false gate }
    ensures settled { IsInDoubt (D.held disk.new) (D.images disk.new) recent.now.all false None }
    ensures written { OnOk result (D.held disk.new ≡ option_map (λ all. overlaid all 7 (0x32 ∷ [])) (D.held disk.old)) }
    ensures durable { OnOk result (IfTold (D.held disk.new) (λ all. Only all (D.images disk.new))) }
    ensures version { OnOk result (HasVersion (D.held disk.new) (Some 0x32)) }
    ensures crashes { SparesList D.Disk disk.old disk.new recent.now.all }
    ensures list { EachImage D.Disk disk.new (λ c. StandsFor c recent.now.all) }
    ensures tries { DiskMayFail D.Disk disk.old disk.new (IsErr result) }
{
    write_synced(disk, 7, &[VERSION])
}

// Carries the version over where it is 1, and answers the one that stands there then.
pub(crate) fn carry_over<D: Disk>(
    disk: &mut D,
    recent: &Recent,
    gate: u64,
    known: Option<u8>,
) -> Result<u8, Failed>
    requires kept { IsKept (D.held disk.old) (D.images disk.old) recent.now.all false gate }
    requires known { HasVersion (D.held disk.old) known }
    ensures kept { IsKept (D.held disk.new) (D.images disk.new) recent.now.all false gate }
    ensures settled { IsInDoubt (D.held disk.new) (D.images disk.new) recent.now.all false None }
    ensures version { IfOk result (λ v. HasVersion (D.held disk.new) (Some v)) }
    ensures other { IfOk result (λ v. v ≢ 0x31) }
    ensures renewed { OnOk result (IsRenewed D.Disk disk.old disk.new) }
    ensures quiet { IfTold (D.held disk.old) (λ all. slice_get all 7 ≢ Some 0x31 → IsQuiet D.Disk disk.old disk.new) }
    ensures crashes { SparesList D.Disk disk.old disk.new recent.now.all }
    ensures list { EachImage D.Disk disk.new (λ c. StandsFor c recent.now.all) }
    ensures tries { DiskMayFail D.Disk disk.old disk.new (IsErr result) }
{
    let version = version_of(disk, known)?;
    if version != OLD {
        return Ok(version);
    }
    renew(disk, recent, gate)?;
    Ok(VERSION)
}
