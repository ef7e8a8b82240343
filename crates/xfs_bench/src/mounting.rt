use crate::records::{BOOT_EACH, Between, record_at};
use std::alloc::{AllocError, Global};
use xfs_disk::{Disk, MemDisk};
use xfs_journal::{Journal, Limits, Rec};

/// How many records a mount reads from a disk in memory that holds so many.
pub(crate) fn mounted(alloc: Global, records: u64) -> Option<u64> {
    let journal = mount(alloc, journal_bytes(alloc, records).ok()?)?;
    Some(journal.records().len() as u64)
}

/// The same where each thousandth is a Start, as the number of the next one tells. From 1,000 on so many are whole thousands.
pub(crate) fn booted(alloc: Global, records: u64, between: Between) -> Option<u64> {
    let mut journal = mount(alloc, thousands(alloc, records, between)?)?;
    journal.append(Rec::Clear).ok()?.checked_sub(1)
}

/// How many of so many records, each thousandth a Start, were appended with their number.
pub(crate) fn appended(alloc: Global, records: u64, between: Between) -> Option<u64> {
    let (_, right) = fill(alloc, records, between)?;
    Some(right)
}

fn mount(alloc: Global, bytes: Vec<u8>) -> Option<Journal<MemDisk>> {
    let limits = Limits {
        records: u64::MAX,
        bytes: u64::MAX,
    };
    Journal::mount(alloc, MemDisk::new(alloc, bytes), limits).ok()
}

// The bytes of a journal of so many records, by turns an Issue and a Clear.
fn journal_bytes(alloc: Global, records: u64) -> Result<Vec<u8>, AllocError> {
    let mut bytes = Vec::from_slice(alloc, b"XFSJRNL2")?;
    for place in 0..records {
        if place % 2 == 0 {
            bytes.extend_from_slice(&[1, 0, 17, b'I'])?;
            bytes.extend_from_slice(&(place / 2 + 1).to_be_bytes())?;
            bytes.extend_from_slice(&[0x5a; 8])?;
        } else {
            bytes.extend_from_slice(&[1, 0, 1, b'C'])?;
        }
    }
    bytes.push(0)?;
    Ok(bytes)
}

// A journal to which so many records were appended, and how many of them had their number.
fn fill(alloc: Global, records: u64, between: Between) -> Option<(Journal<MemDisk>, u64)> {
    let mut journal = mount(alloc, Vec::new(alloc))?;
    let right = append_all(alloc, &mut journal, records, between)?;
    Some((journal, right))
}

fn append_all<D: Disk>(
    alloc: Global,
    journal: &mut Journal<D>,
    records: u64,
    between: Between,
) -> Option<u64> {
    let mut right = 0u64;
    for place in 0..records {
        let rec = record_at(alloc, place, between)?;
        if journal.append(rec).ok()? == place + 1 {
            right = right.saturating_add(1);
        }
    }
    Some(right)
}

// The bytes of a journal with the same records thousand after thousand.
fn thousands(alloc: Global, records: u64, between: Between) -> Option<Vec<u8>> {
    let (journal, _) = fill(alloc, records.min(BOOT_EACH), between)?;
    let disk = journal.end();
    repeated(
        alloc,
        disk.bytes(),
        usize::try_from(records / BOOT_EACH).ok()?.max(1),
    )
}

// The bytes of a journal with its list so many times.
fn repeated(alloc: Global, file: &[u8], times: usize) -> Option<Vec<u8>> {
    let (magic, rest) = file.split_at_checked(8)?;
    let (gate, listed) = rest.split_last()?;
    let len = listed.len().checked_mul(times)?.checked_add(64)?;
    let mut bytes = Vec::with_capacity(alloc, len).ok()?;
    bytes.extend_from_slice(magic).ok()?;
    for _ in 0..times {
        bytes.extend_from_slice(listed).ok()?;
    }
    bytes.push(*gate).ok()?;
    Some(bytes)
}
