//! Reading a disk as a journal, and making an empty one.
ghost use Rattle.std.specs.Prelude.{◌≡◌, ◌≢◌, ◌<◌, ◌≤◌, ◌+◌, ◌^◌, ℕ, [], length, false, Err, Some, IfOk, IfErr, IsErr, OnOk};
ghost use Rattle.std.specs.List.{AllByRecursion};
ghost use Rattle.xfs_base.specs.Causes.{IfTold};
ghost use Rattle.xfs_disk.specs.Disk.{Only};
ghost use Rattle.xfs_disk.specs.Moments.{LeavesOnly};
ghost use Rattle.xfs_journal.specs.Holding.{IsHeld};
ghost use Rattle.xfs_journal.specs.declared.keep.Keep.TheVariants.{SinceBoot};
ghost use Rattle.xfs_journal.specs.Image.{IsImage, IsRecord, StandsFor, end_of};
ghost use Rattle.xfs_journal.specs.JournalView.{HasVersion, IsKept};
ghost use Rattle.xfs_journal.specs.Outcomes.{DiskMayFail};
ghost use Rattle.xfs_journal.specs.Paging.{IsQuiet, OnlyReads, CeasesAt, CeasesLongAt, LeavesOldOrShort, MayCease};
ghost use Rattle.xfs_journal.specs.declared.faults.MountFault.TheVariants.{NotJournal, Disk as DiskFault};

use crate::MountFault;
use crate::buffer::Buffer;
use crate::gate::write_synced;
use crate::keep::Keep;
use crate::page::Page;
use crate::recent::Recent;
use crate::scan::{MAGIC, VERSION, read_records};
use std::alloc::Global;
use xfs_disk::Disk;

// The list, the place of its closing gate byte, and the version in front of it.
#[derive(Drop)]
pub(crate) struct Listed {
    pub(crate) recent: Recent,
    pub(crate) end: u64,
    pub(crate) version: u8,
}

// Reads the records of a disk of so many bytes.
pub(crate) fn read_all<D: Disk>(
    alloc: Global,
    disk: &mut D,
    len: u64,
    block: &mut Buffer,
    keep: Keep,
) -> Result<Listed, MountFault>
    requires len { IfTold (D.held disk.old) (λ all. length all ≡ len) }
    ensures held { IfOk result (λ l. IsHeld keep l.recent) }
    ensures small { IfOk result (λ l. l.end + 1 < 2 ^ 64) }
    ensures place { IfOk result (λ l. (l.end ≡ end_of l.recent.all) × AllByRecursion IsRecord l.recent.all) }
    ensures image { IfOk result (λ l. IfTold (D.held disk.old) (λ all. IsImage all l.recent.all)) }
    ensures version { IfOk result (λ l. HasVersion (D.held disk.old) (Some l.version)) }
    ensures broken { IfErr result (λ f. (x : ℕ) → f ≡ NotJournal x → IfTold (D.held disk.old) (λ all. CeasesAt all x)) }
    ensures ceases { IfErr result (λ f. (x : ℕ) → f ≡ NotJournal x → MayCease x) }
    ensures reads { OnlyReads D.Disk disk.old disk.new (result ≡ Err DiskFault) }
{
    let Ok(mut spare) = Buffer::new(alloc) else {
        return Err(MountFault::Memory);
    };
    let mut page = Page::new(len);
    let (version, recent) = read_records(alloc, disk, &mut page, block, &mut spare, keep)?;
    let end = page.at() - 1;
    Ok(Listed {
        recent,
        end,
        version,
    })
}

// Syncs, and answers the number of bytes.
pub(crate) fn sync_len<D: Disk>(disk: &mut D) -> Result<u64, MountFault>
    ensures len { IfOk result (λ n. IfTold (D.held disk.old) (λ all. length all ≡ n)) }
    ensures durable { OnOk result (IfTold (D.held disk.new) (λ all. Only all (D.images disk.new))) }
    ensures err { IfErr result (λ f. f ≡ DiskFault) }
    ensures reads { OnlyReads D.Disk disk.old disk.new (IsErr result) }
{
    if disk.sync().is_err() {
        return Err(MountFault::Disk);
    }
    disk.len().map_err(|_| MountFault::Disk)
}

// Makes an empty journal of at most 9 bytes.
pub(crate) fn make_empty<D: Disk>(alloc: Global, disk: &mut D) -> Result<Listed, MountFault>
    requires short { IfTold (D.held disk.old) (λ all. (length all ≤ 9) × Only all (D.images disk.old)) }
    ensures ok { IfOk result (λ l. (l.recent.all ≡ []) × (l.recent.base ≡ 0) × (l.end ≡ 8)) }
    ensures kept { IfOk result (λ l. IsKept (D.held disk.new) (D.images disk.new) l.recent.all false l.end) }
    ensures version { IfOk result (λ l. HasVersion (D.held disk.new) (Some l.version)) }
    ensures err { IfErr result (λ f. f ≡ DiskFault) }
    ensures any_moment { IfTold (D.held disk.old) (λ _. LeavesOnly D.Disk disk.old disk.new (λ c. length c ≤ 9)) }
    ensures tries { DiskMayFail D.Disk disk.old disk.new (result ≡ Err DiskFault) }
{
    let [a, b, c, d, e, f, g] = MAGIC;
    if write_synced(disk, 0, &[a, b, c, d, e, f, g, VERSION, 0]).is_err() {
        return Err(MountFault::Disk);
    }
    Ok(Listed {
        recent: Recent::new(alloc),
        end: 8,
        version: VERSION,
    })
}

// Reads the records of a synced disk of so many bytes. At most 9 that are no journal become an empty one.
fn read_or_empty<D: Disk>(
    alloc: Global,
    disk: &mut D,
    len: u64,
    block: &mut Buffer,
) -> Result<Listed, MountFault>
    requires len { IfTold (D.held disk.old) (λ all. length all ≡ len) }
    requires durable { IfTold (D.held disk.old) (λ all. Only all (D.images disk.old)) }
    ensures kept { IfOk result (λ l. IsKept (D.held disk.new) (D.images disk.new) l.recent.all false l.end) }
    ensures held { IfOk result (λ l. IsHeld SinceBoot l.recent) }
    ensures end { IfOk result (λ l. l.end ≡ end_of l.recent.all) }
    ensures version { IfOk result (λ l. HasVersion (D.held disk.new) (Some l.version)) }
    ensures stands { IfOk result (λ l. IfTold (D.held disk.old) (λ all. StandsFor all l.recent.all)) }
    ensures refused { IfErr result (λ f. (at : ℕ) → f ≡ NotJournal at → CeasesLongAt (D.held disk.old) at) }
    ensures unwritten { IfErr result (λ f. f ≢ DiskFault → IsQuiet D.Disk disk.old disk.new) }
    ensures long { IfTold (D.held disk.old) (λ all. 9 < length all → IsQuiet D.Disk disk.old disk.new) }
    ensures any_moment { LeavesOldOrShort D.Disk disk.old disk.new }
    ensures tries { DiskMayFail D.Disk disk.old disk.new (result ≡ Err DiskFault) }
{
    match read_all(alloc, disk, len, block, Keep::SinceBoot) {
        Err(MountFault::NotJournal { .. }) if len <= 9 => make_empty(alloc, disk),
        answer => answer,
    }
}

// Syncs a disk and reads its records.
pub(crate) fn load<D: Disk>(
    alloc: Global,
    disk: &mut D,
    block: &mut Buffer,
) -> Result<Listed, MountFault>
    ensures kept { IfOk result (λ l. IsKept (D.held disk.new) (D.images disk.new) l.recent.all false l.end) }
    ensures held { IfOk result (λ l. IsHeld SinceBoot l.recent) }
    ensures end { IfOk result (λ l. l.end ≡ end_of l.recent.all) }
    ensures version { IfOk result (λ l. HasVersion (D.held disk.new) (Some l.version)) }
    ensures stands { IfOk result (λ l. IfTold (D.held disk.old) (λ all. StandsFor all l.recent.all)) }
    ensures refused { IfErr result (λ f. (at : ℕ) → f ≡ NotJournal at → CeasesLongAt (D.held disk.old) at) }
    ensures unwritten { IfErr result (λ f. f ≢ DiskFault → IsQuiet D.Disk disk.old disk.new) }
    ensures long { IfTold (D.held disk.old) (λ all. 9 < length all → IsQuiet D.Disk disk.old disk.new) }
    ensures any_moment { LeavesOldOrShort D.Disk disk.old disk.new }
    ensures tries { DiskMayFail D.Disk disk.old disk.new (result ≡ Err DiskFault) }
{
    let len = sync_len(disk)?;
    read_or_empty(alloc, disk, len, block)
}
