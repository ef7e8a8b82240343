//! Reading a file of records from its start to the closing gate byte.
ghost use Rattle.std.specs.Prelude.{◌≡◌, ◌+◌, ◌<◌, ℕ, ◌∷◌, ◌++◌, drop, Err, Some, IfOk, IfErr, OnOk};
ghost use Rattle.std.specs.List.{AllByRecursion};
ghost use Rattle.xfs_base.specs.Causes.{IfTold};
ghost use Rattle.xfs_journal.specs.Holding.{IsHeld};
ghost use Rattle.xfs_journal.specs.Image.{IsImage, IsRecord, end_of, magic};
ghost use Rattle.xfs_journal.specs.JournalView.{HasVersion};
ghost use Rattle.xfs_journal.specs.Paging.{Shows, OnlyReads, CeasesAt, MayCease};
ghost use Rattle.xfs_journal.specs.declared.faults.MountFault.TheVariants.{NotJournal, Disk as DiskFault};

use crate::MountFault;
use crate::block::{need, read_block};
use crate::buffer::Buffer;
use crate::keep::Keep;
use crate::page::Page;
use crate::recent::Recent;
use std::alloc::Global;
use xfs_disk::Disk;

/// What a journal begins with, in front of its version: XFSJRNL.
pub(crate) const MAGIC: [u8; 7] = [0x58, 0x46, 0x53, 0x4A, 0x52, 0x4E, 0x4C];

/// The version of a new journal: the digit 2.
pub(crate) const VERSION: u8 = 0x32;

// Reads what a journal begins with, and its version, which may be any byte.
fn read_magic<D: Disk>(disk: &mut D, page: &mut Page, block: &mut Buffer) -> Result<u8, MountFault>
    requires start { page.old.at ≡ 0 }
    requires shows { IfTold (D.held disk.old) (λ all. Shows all page.old) }
    ensures at { OnOk result (page.new.at ≡ 8) }
    ensures magic { IfOk result (λ v. IfTold (D.held disk.old) (λ all. (all ≡ magic ++ v ∷ drop 8 all) × Shows all page.new)) }
    ensures broken { IfErr result (λ f. (x : ℕ) → f ≡ NotJournal x → IfTold (D.held disk.old) (λ all. CeasesAt all x)) }
    ensures ceases { IfErr result (λ f. (x : ℕ) → f ≡ NotJournal x → MayCease x) }
    ensures reads { OnlyReads D.Disk disk.old disk.new (result ≡ Err DiskFault) }
{
    block.clear();
    need(disk, page, block, 8, 0)?;
    let Some((version, front)) = block.bytes().split_last() else {
        return Err(MountFault::NotJournal { at: 0 });
    };
    if front == MAGIC.as_slice() {
        Ok(*version)
    } else {
        Err(MountFault::NotJournal { at: 0 })
    }
}

// The version, and the records up to the closing gate byte.
pub(crate) fn read_records<D: Disk>(
    alloc: Global,
    disk: &mut D,
    page: &mut Page,
    block: &mut Buffer,
    spare: &mut Buffer,
    keep: Keep,
) -> Result<(u8, Recent), MountFault>
    requires start { page.old.at ≡ 0 }
    requires shows { IfTold (D.held disk.old) (λ all. Shows all page.old) }
    ensures place { IfOk result (λ r. page.new.at ≡ end_of r.1.all + 1) }
    ensures of_table { IfOk result (λ r. AllByRecursion IsRecord r.1.all) }
    ensures held { IfOk result (λ r. IsHeld keep r.1) }
    ensures version { IfOk result (λ r. HasVersion (D.held disk.old) (Some r.0)) }
    ensures image { IfOk result (λ r. IfTold (D.held disk.old) (λ all. IsImage all r.1.all)) }
    ensures broken { IfErr result (λ f. (x : ℕ) → f ≡ NotJournal x → IfTold (D.held disk.old) (λ all. CeasesAt all x)) }
    ensures ceases { IfErr result (λ f. (x : ℕ) → f ≡ NotJournal x → MayCease x) }
    ensures reads { OnlyReads D.Disk disk.old disk.new (result ≡ Err DiskFault) }
{
    let version = read_magic(disk, page, block)?;
    let mut recent = Recent::new(alloc);
    while let Some(rec) = read_block(alloc, disk, page, block, spare)? {
        if recent.take_in(rec, keep).is_err() {
            return Err(MountFault::Memory);
        }
    }
    Ok((version, recent))
}
