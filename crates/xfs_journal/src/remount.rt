//! Reading a disk's journal again, and comparing it with the list that was kept.
ghost use Rattle.std.specs.Prelude.{◌≡◌, ◌≢◌, ◌≤◌, ◌<◌, ◌^◌, List, ℕ, false, None, length, Err, Some, IfOk, IfErr, IfSome};
ghost use Rattle.std.specs.List.{AllByRecursion};
ghost use Rattle.xfs_base.specs.Causes.{IfTold};
ghost use Rattle.xfs_disk.specs.Disk.{Only};
ghost use Rattle.xfs_journal.specs.Holding.{IsHeld, with_front};
ghost use Rattle.xfs_journal.specs.Journal.{base_of};
ghost use Rattle.xfs_journal.specs.declared.keep.Keep.TheVariants.{Behind};
ghost use Rattle.xfs_journal.specs.Image.{IsImage, IsRecord, end_of};
ghost use Rattle.xfs_journal.specs.JournalView.{DiffersAt, HasVersion, IsKept, HasPossible, IsPossible, IsPossibleBehind, MayPartAt};
ghost use Rattle.xfs_journal.specs.Outcomes.{DiskMayFail};
ghost use Rattle.xfs_journal.specs.Paging.{IsQuiet, MayCease};
ghost use Rattle.xfs_journal.specs.declared.faults.MountFault.TheVariants.{NotJournal, Disk as DiskFault};
ghost use Rattle.xfs_journal.specs.declared.record.Rec.{Rec};
ghost use Rattle.xfs_disk.specs.Moments.{EachImage};

use crate::buffer::Buffer;
use crate::differ::{parts_at, size_of};
use crate::keep::Keep;
use crate::mount::{Listed, make_empty, read_all, sync_len};
use crate::recent::Recent;
use crate::{MountFault, Rec};
use std::alloc::Global;
use xfs_disk::Disk;

// Reads the records of a synced disk of so many bytes. At most 9 that are no journal stand for the empty list: they
// are made an empty journal where that list was kept, else the first kept record is missing.
fn read_again<D: Disk>(
    alloc: Global,
    disk: &mut D,
    len: u64,
    block: &mut Buffer,
    kept: &Recent,
) -> Result<Listed, MountFault>
    requires len { IfTold (D.held disk.old) (λ all. length all ≡ len) }
    requires durable { IfTold (D.held disk.old) (λ all. Only all (D.images disk.old)) }
    requires image { IfTold (D.held disk.old) (λ all. (records : List Rec) × IsImage all records) }
    ensures held { IfOk result (λ l. IsHeld (Behind kept.now.base) l.recent) }
    ensures place { IfOk result (λ l. (l.end ≡ end_of l.recent.all) × AllByRecursion IsRecord l.recent.all × (l.end < 2 ^ 64)) }
    ensures kept { IfOk result (λ l. IsKept (D.held disk.new) (D.images disk.new) l.recent.all false l.end) }
    ensures version { IfOk result (λ l. HasVersion (D.held disk.new) (Some l.version)) }
    ensures image { IfOk result (λ l. IfTold (D.held disk.old) (λ all. IsImage all l.recent.all)) }
    ensures silent { IfErr result (λ f. (at : ℕ) → f ≡ NotJournal at → D.held disk.old ≡ None) }
    ensures ceases { IfErr result (λ f. (at : ℕ) → f ≡ NotJournal at → MayCease at) }
    ensures quiet { IfTold (D.held disk.old) (λ _. IsQuiet D.Disk disk.old disk.new) }
    ensures tries { DiskMayFail D.Disk disk.old disk.new (result ≡ Err DiskFault) }
{
    match read_all(alloc, disk, len, block, Keep::Behind(kept.base())) {
        Err(MountFault::NotJournal { .. }) if len <= 9 && kept.len() == 0 => {
            make_empty(alloc, disk)
        }
        Err(MountFault::NotJournal { .. }) if len <= 9 => Err(MountFault::NotJournal { at: 8 }),
        answer => answer,
    }
}

// The place of the gate byte of the first record behind the base that differs from the kept ones, with that in doubt
// or without it, is missing or is too many.
fn differs_at(
    listed: &Listed,
    kept: &Recent,
    in_doubt: &Option<Rec>,
    first: &mut Buffer,
    second: &mut Buffer,
) -> Option<u64>
    requires of_table { AllByRecursion IsRecord kept.now.all × AllByRecursion IsRecord listed.now.recent.all × IfSome in_doubt.now IsRecord }
    requires place { listed.now.end ≡ end_of listed.now.recent.all }
    requires small { listed.now.end < 2 ^ 64 }
    requires held { IsHeld (Behind kept.now.base) listed.now.recent }
    requires led { kept.now.base ≤ base_of kept.now.all }
    ensures base { result ≡ None → listed.now.recent.base ≡ kept.now.base }
    ensures long { result ≡ None → kept.now.base ≤ length listed.now.recent.all }
    ensures possible { result ≡ None → IsPossibleBehind kept.now.base kept.now.all in_doubt.now listed.now.recent.all }
    ensures other { IfSome result (λ _. ¬ IsPossibleBehind kept.now.base kept.now.all in_doubt.now listed.now.recent.all) }
    ensures differs { IfSome result (DiffersAt kept.now.base kept.now.all in_doubt.now listed.now.recent.all) }
{
    if listed.recent.base() < kept.base() {
        return Some(listed.end);
    }
    let found = listed.recent.records();
    let at = parts_at(found, kept.records(), in_doubt, first, second)?;
    let (_, behind) = found.split_at(at);
    Some(listed.end - size_of(behind, first))
}

// The list that was read, with room for one record more, where behind the base it's the kept one, or that one with the
// record in doubt.
fn possible(
    alloc: Global,
    listed: Listed,
    kept: &Recent,
    in_doubt: &Option<Rec>,
    block: &mut Buffer,
) -> Result<Listed, MountFault>
    requires of_table { AllByRecursion IsRecord kept.now.all × AllByRecursion IsRecord listed.recent.all × IfSome in_doubt.now IsRecord }
    requires place { listed.end ≡ end_of listed.recent.all }
    requires small { listed.end < 2 ^ 64 }
    requires held { IsHeld (Behind kept.now.base) listed.recent }
    requires led { kept.now.base ≤ base_of kept.now.all }
    ensures same { IfOk result (λ l. (l.recent.all ≡ listed.recent.all) × (l.end ≡ listed.end) × (l.version ≡ listed.version)) }
    ensures base { IfOk result (λ l. l.recent.base ≡ kept.now.base) }
    ensures long { IfOk result (λ l. kept.now.base ≤ length l.recent.all) }
    ensures possible { IfOk result (λ l. IsPossibleBehind kept.now.base kept.now.all in_doubt.now l.recent.all) }
    ensures reserved { IfOk result (λ l. 1 ≤ l.recent.room) }
    ensures other { IfErr result (λ f. (at : ℕ) → f ≡ NotJournal at → ¬ IsPossibleBehind kept.now.base kept.now.all in_doubt.now listed.recent.all) }
    ensures differs { IfErr result (λ f. (at : ℕ) → f ≡ NotJournal at → DiffersAt kept.now.base kept.now.all in_doubt.now listed.recent.all at) }
    ensures not_disk { IfErr result (λ f. f ≢ DiskFault) }
{
    let mut listed = listed;
    if listed.recent.reserve(1).is_err() {
        return Err(MountFault::Memory);
    }
    let Ok(mut second) = Buffer::new(alloc) else {
        return Err(MountFault::Memory);
    };
    match differs_at(&listed, kept, in_doubt, block, &mut second) {
        Some(at) => Err(MountFault::NotJournal { at }),
        None => Ok(listed),
    }
}

// Syncs a disk and reads its records again: behind the base they are the kept ones, or those with the record in doubt.
// The list is then the kept front with what was read behind it; a disk that tells has no other front.
pub(crate) fn reload<D: Disk>(
    alloc: Global,
    disk: &mut D,
    block: &mut Buffer,
    kept: &Recent,
    in_doubt: &Option<Rec>,
) -> Result<Listed, MountFault>
    requires of_table { AllByRecursion IsRecord kept.now.all × IfSome in_doubt.now IsRecord }
    requires led { kept.now.base ≤ base_of kept.now.all }
    requires possible { EachImage D.Disk disk.old (HasPossible kept.now.all in_doubt.now) }
    ensures base { IfOk result (λ l. l.recent.base ≡ kept.now.base) }
    ensures kept { IfOk result (λ l. IsKept (D.held disk.new) (D.images disk.new) (with_front kept.now.base kept.now.all l.recent.all) false l.end) }
    ensures version { IfOk result (λ l. HasVersion (D.held disk.new) (Some l.version)) }
    ensures possible { IfOk result (λ l. IsPossible kept.now.all in_doubt.now (with_front kept.now.base kept.now.all l.recent.all)) }
    ensures long { IfOk result (λ l. length l.recent.all ≡ length (with_front kept.now.base kept.now.all l.recent.all)) }
    ensures reserved { IfOk result (λ l. 1 ≤ l.recent.room) }
    ensures image { IfOk result (λ l. IfTold (D.held disk.old) (λ all. IsImage all (with_front kept.now.base kept.now.all l.recent.all))) }
    ensures silent { IfErr result (λ f. (at : ℕ) → f ≡ NotJournal at → D.held disk.old ≡ None) }
    ensures place { IfErr result (λ f. (at : ℕ) → f ≡ NotJournal at → MayPartAt kept.now.base kept.now.all in_doubt.now at) }
    ensures quiet { IfTold (D.held disk.old) (λ _. IsQuiet D.Disk disk.old disk.new) }
    ensures tries { DiskMayFail D.Disk disk.old disk.new (result ≡ Err DiskFault) }
{
    let len = sync_len(disk)?;
    let listed = read_again(alloc, disk, len, block, kept)?;
    possible(alloc, listed, kept, in_doubt, block)
}
