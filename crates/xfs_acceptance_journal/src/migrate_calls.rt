//! Files of an older version, and how they are carried over.

use crate::journal_calls::{append, mounted};
use crate::short_files::old_file;
use std::alloc::Global;
use std::test::Fail;
use xfs_disk::{Disk, FailDisk, MemDisk};
use xfs_journal::{Journal, MigrateFault, Rec};

// The older file with this byte as its eighth.
fn file_of(alloc: Global, version: u8) -> Result<Vec<u8>, Fail> {
    let mut bytes = old_file(alloc)?;
    *bytes.get_mut(7).ok_or("shorter")? = version;
    Ok(bytes)
}

fn migrate<D: Disk>(journal: &mut Journal<D>) -> Result<(), MigrateFault> {
    journal.migrate()
}

// Which version the file of this one has once it was carried over. None where the journal hasn't its two records.
fn carried(alloc: Global, version: u8) -> Result<Option<u8>, Fail> {
    let mut journal = mounted(alloc, MemDisk::new(alloc, file_of(alloc, version)?))?;
    if journal.records().len() != 2 || migrate(&mut journal).is_err() {
        return Ok(None);
    }
    version_in(alloc, journal.end().bytes())
}

// The version of the older file with any byte as its eighth. None where it is another file.
fn version_in(alloc: Global, found: &[u8]) -> Result<Option<u8>, Fail> {
    let byte = *found.get(7).ok_or("shorter")?;
    let due = file_of(alloc, byte)?;
    Ok((found == due.as_slice()).then_some(byte))
}

// A crash while the byte is written may leave any of them.
#[test]
fn a_file_has_any_version_and_only_a_1_is_carried_over(rt: HostRuntime) -> Result<(), Fail> {
    for version in 0..=255 {
        let due = if version == b'1' { b'2' } else { version };
        assert!(rt; carried(rt.alloc(), version)? == Some(due));
    }
    Ok(())
}

// The records of the file behind a migrate whose call of the disk failed, an append, a cut of the power and a mount.
fn records_after(alloc: Global, failing: u64, pick: u64) -> Result<usize, Fail> {
    let mut journal = behind_failing(alloc, failing)?;
    if append(&mut journal, Rec::Clear).is_err() {
        return Err("the journal takes no record".into());
    }
    count_of(alloc, cut_off(journal, pick))
}

fn cut_off(journal: Journal<FailDisk>, pick: u64) -> MemDisk {
    let disk = journal.end();
    disk.inner().crash(pick)
}

fn count_of(alloc: Global, disk: MemDisk) -> Result<usize, Fail> {
    let journal = mounted(alloc, disk)?;
    Ok(journal.records().len())
}

// A journal whose migrate failed at this call of its disk.
fn behind_failing(alloc: Global, failing: u64) -> Result<Journal<FailDisk>, Fail> {
    let failing = Vec::from_slice(alloc, &[failing])?;
    let disk = MemDisk::new(alloc, old_file(alloc)?);
    let mut journal = mounted(alloc, FailDisk::new(disk, failing))?;
    if !fails_open(&mut journal) {
        return Err("the migrate did not fail, or shut the journal".into());
    }
    Ok(journal)
}

fn fails_open<D: Disk>(journal: &mut Journal<D>) -> bool {
    migrate(journal).is_err() && !journal.shut()
}

#[test]
fn a_journal_goes_on_behind_a_migrate_whose_disk_failed(rt: HostRuntime) -> Result<(), Fail> {
    for failing in 4..=5 {
        for pick in 0..8 {
            assert!(rt;
                records_after(rt.alloc(), failing, pick)? == 3,
                "call {failing}, pick {pick}"
            );
        }
    }
    Ok(())
}
