//! The bytes of journals with one or two records.

use std::alloc::{AllocError, Global};

// Four units of 100 notes, in the places of a boot record.
fn places() -> [u8; 192] {
    let mut bytes = [0; 192];
    for unit in 0..4 {
        bytes[4 * unit + 3] = 100;
    }
    bytes
}

// An Issue, and the closed gate behind it.
const ISSUE: [u8; 21] = *b"\x01\0\x11I\0\0\0\0\0\0\0\x01\xE5\x6A\x5D\x40\x28\xBD\x86\x53\0";

// What begins a file, with its first record up to the places, then the places, and an issue.
fn file_from(alloc: Global, begin: &[u8]) -> Result<Vec<u8>, AllocError> {
    let mut bytes = begin.to_vec(alloc)?;
    bytes.extend_from_slice(&places())?;
    bytes.extend_from_slice(&ISSUE)?;
    Ok(bytes)
}

/// The file of 225 bytes that an older program left: a Boot and an Issue.
pub fn old_file(alloc: Global) -> Result<Vec<u8>, AllocError> {
    file_from(alloc, b"XFSJRNL1\x01\x00\xC1\x42")
}

/// The file after the start on an empty disk, and an issue.
pub fn short_file(alloc: Global) -> Result<Vec<u8>, AllocError> {
    file_from(alloc, b"XFSJRNL2\x01\x00\xC9\x4B\0\0\0\0\0\0\0\0")
}

/// The first 212 bytes of it, and a closed gate.
pub fn start_file(alloc: Global) -> Result<Vec<u8>, AllocError> {
    let mut bytes = short_file(alloc)?;
    bytes.truncate(212);
    bytes.push(0)?;
    Ok(bytes)
}
