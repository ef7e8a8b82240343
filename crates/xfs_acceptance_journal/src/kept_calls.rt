//! What a journal has in memory of a longer file, and what a remount asks of it there.

use crate::files::opened;
use crate::journal_calls::{LIMITS, append, mounted, remount};
use crate::short_files::{old_file, short_file};
use std::alloc::Global;
use std::fs::{self, File};
use std::test::Fail;
use xfs_disk::{Disk, FileDisk, MemDisk};
use xfs_journal::{AppendFault, Journal, Limits, MountFault, Rec};

// A Boot and an Issue, and behind them a Start and an Issue, whose gate bytes stand at 224 and 428: 449 bytes.
fn long_file(alloc: Global) -> Result<Vec<u8>, Fail> {
    let mut bytes = old_file(alloc)?;
    bytes.pop();
    bytes.extend_from_slice(short_file(alloc)?.get(8..).ok_or("shorter")?)?;
    Ok(bytes)
}

// Its first bytes, and these behind them.
fn cut(alloc: Global, len: usize, behind: &[u8]) -> Result<Vec<u8>, Fail> {
    let mut bytes = long_file(alloc)?;
    bytes.truncate(len);
    bytes.extend_from_slice(behind)?;
    Ok(bytes)
}

// The file with another byte at this place.
fn with(alloc: Global, place: usize, byte: u8) -> Result<Vec<u8>, Fail> {
    let mut bytes = long_file(alloc)?;
    *bytes.get_mut(place).ok_or("shorter")? = byte;
    Ok(bytes)
}

// The file with a Clear in place of its Boot, which is 192 bytes longer.
fn with_short_front(alloc: Global) -> Result<Vec<u8>, Fail> {
    let mut bytes = b"XFSJRNL1\x01\0\x01C".to_vec(alloc)?;
    bytes.extend_from_slice(long_file(alloc)?.get(204..).ok_or("shorter")?)?;
    Ok(bytes)
}

// Whether memory has the Start and the Issue behind it alone.
fn keeps_two<D: Disk>(journal: &Journal<D>) -> bool {
    matches!(
        journal.records(),
        [Rec::Start { issues: 0, .. }, Rec::Issue { number: 1, .. }]
    ) && journal.base() == 2
        && journal.issues() == 1
}

#[test]
fn memory_has_the_records_from_the_last_boot_record_on(rt: HostRuntime) -> Result<(), Fail> {
    let alloc = rt.alloc();
    let mut journal = mounted(alloc, MemDisk::new(alloc, long_file(alloc)?))?;
    assert!(rt; keeps_the_end(&mut journal));
    Ok(())
}

#[test]
fn memory_has_all_records_behind_the_first_boot_record(rt: HostRuntime) -> Result<(), Fail> {
    let alloc = rt.alloc();
    let journal = mounted(alloc, MemDisk::new(alloc, old_file(alloc)?))?;
    assert!(rt; keeps_all(&journal));
    Ok(())
}

// Whether memory has the two records alone, also behind a rebase once a third came.
fn keeps_the_end<D: Disk>(journal: &mut Journal<D>) -> bool {
    let begins = keeps_two(journal);
    let appended = append(journal, Rec::Clear);
    rebase(journal);
    begins && appended == Ok(5) && journal.base() == 2 && journal.issues() == 1
}

fn rebase<D: Disk>(journal: &mut Journal<D>) {
    journal.rebase();
}

fn keeps_all<D: Disk>(journal: &Journal<D>) -> bool {
    journal.base() == 0 && journal.issues() == 0 && journal.records().len() == 2
}

// The limit of four records counts the two in memory.
#[test]
fn the_limit_of_records_counts_those_in_memory(rt: HostRuntime) -> Result<(), Fail> {
    let alloc = rt.alloc();
    let limits = Limits {
        records: 4,
        bytes: LIMITS.bytes,
    };
    let Ok(mut journal) = Journal::mount(alloc, MemDisk::new(alloc, long_file(alloc)?), limits)
    else {
        return Err("the disk is not mounted")?;
    };
    assert!(rt; takes_two_more(&mut journal));
    Ok(())
}

fn takes_two_more<D: Disk>(journal: &mut Journal<D>) -> bool {
    journal.left().records == 2
        && append(journal, Rec::Clear) == Ok(5)
        && append(journal, Rec::Expire) == Ok(6)
        && append(journal, Rec::Clear) == Err(AppendFault::Full)
}

// Whether a remount takes what others wrote into the journal's file, and where the next record stands then, which is the
// fifth; else the place that it is refused at.
fn remounted(rt: &HostRuntime, found: &[u8]) -> Result<(bool, u64), Fail> {
    let path = "xfs_journal_kept.test";
    fs::write(rt, path, long_file(rt.alloc())?.as_slice())?;
    let mut journal = mounted(rt.alloc(), FileDisk::new(opened(rt, path)?))?;
    fs::write(rt, path, found)?;
    told_again(rt, path, &mut journal)
}

fn told_again<D: Disk>(
    rt: &HostRuntime,
    path: &str,
    journal: &mut Journal<D>,
) -> Result<(bool, u64), Fail> {
    if let Some(at) = refused_at(journal)? {
        return Ok((false, at));
    }
    takes_a_fifth(journal)?;
    Ok((true, last_clear(rt, path)?))
}

// The place that a remount is refused at. None where it isn't.
fn refused_at<D: Disk>(journal: &mut Journal<D>) -> Result<Option<u64>, Fail> {
    match remount(journal) {
        Ok(()) => Ok(None),
        Err(MountFault::NotJournal { at }) => Ok(Some(at)),
        Err(fault) => Err(fault.into()),
    }
}

fn takes_a_fifth<D: Disk>(journal: &mut Journal<D>) -> Result<(), Fail> {
    if !keeps_two(journal) || append(journal, Rec::Clear) != Ok(5) {
        return Err("other records are kept")?;
    }
    Ok(())
}

// The place of the Clear that a file ends with.
fn last_clear(rt: &HostRuntime, path: &str) -> Result<u64, Fail> {
    let bytes = fs::read(rt, path)?;
    let at = bytes.len().saturating_sub(5);
    if bytes.get(at..) != Some(b"\x01\0\x01C\0".as_slice()) {
        return Err("the file ends otherwise")?;
    }
    Ok(at as u64)
}

// This file is taken, or refused at this place.
fn taken(rt: &HostRuntime, found: Result<Vec<u8>, Fail>, due: (bool, u64)) -> Result<(), Fail> {
    if remounted(rt, &found?)? != due {
        return Err("another answer, or another place")?;
    }
    Ok(())
}

// A file tells nothing: of what stands in front of the base, it is asked that it is whole records.
#[test]
fn a_remount_compares_what_stands_behind_the_base(rt: HostRuntime) -> Result<(), Fail> {
    let alloc = rt.alloc();
    taken(&rt, long_file(alloc), (true, 448))?;
    // Another Start; a record missing; one too many.
    taken(&rt, with(alloc, 239, 99), (false, 224))?;
    taken(&rt, cut(alloc, 428, b"\0"), (false, 428))?;
    taken(&rt, cut(alloc, 448, b"\x01\0\x01C\0"), (false, 448))?;
    // In front other places, no record, another length, and fewer records than the base.
    taken(&rt, with(alloc, 15, 99), (true, 448))?;
    taken(&rt, with(alloc, 11, b'Z'), (false, 8))?;
    taken(&rt, with_short_front(alloc), (true, 256))?;
    taken(&rt, cut(alloc, 204, b"\0"), (false, 204))?;
    fs::remove_file(&rt, "xfs_journal_kept.test")?;
    Ok(())
}

// Whether a remount takes these bytes where a Clear is in doubt, and how many records memory has then; else the place that
// it is refused at.
fn remounted_in_doubt(rt: &HostRuntime, found: &[u8]) -> Result<(bool, u64), Fail> {
    let path = "xfs_journal_doubt.test";
    fs::write(rt, path, long_file(rt.alloc())?.as_slice())?;
    let mut journal = doubting(rt, path)?;
    fs::write(rt, path, found)?;
    told_in_doubt(&mut journal)
}

fn told_in_doubt<D: Disk>(journal: &mut Journal<D>) -> Result<(bool, u64), Fail> {
    Ok(match refused_at(journal)? {
        None => (true, journal.records().len() as u64),
        Some(at) => (false, at),
    })
}

// The journal of a file that can't be written, where a Clear is in doubt.
fn doubting(rt: &HostRuntime, path: &str) -> Result<Journal<FileDisk>, Fail> {
    let mut journal = mounted(rt.alloc(), FileDisk::new(File::open(rt, path)?))?;
    if append(&mut journal, Rec::Clear) != Err(AppendFault::Disk) {
        return Err("a file that can't be written was")?;
    }
    Ok(journal)
}

// The record in doubt is found, or not, or the file is refused at this place.
fn found_in_doubt(rt: &HostRuntime, behind: &[u8], due: (bool, u64)) -> Result<(), Fail> {
    let found = cut(rt.alloc(), 448, behind)?;
    if remounted_in_doubt(rt, &found)? != due {
        return Err("another answer, or another place")?;
    }
    Ok(())
}

#[test]
fn a_record_in_doubt_is_found_behind_the_base_or_not(rt: HostRuntime) -> Result<(), Fail> {
    found_in_doubt(&rt, b"\0", (true, 2))?;
    found_in_doubt(&rt, b"\x01\0\x01C\0", (true, 3))?;
    found_in_doubt(&rt, b"\x01\0\x01E\0", (false, 448))?;
    found_in_doubt(&rt, b"\x01\0\x01C\x01\0\x01C\0", (false, 452))?;
    fs::remove_file(&rt, "xfs_journal_doubt.test")?;
    Ok(())
}
