//! How the journal's file is opened.

use crate::fault::FileFault;
use std::fs;
use std::fs::{File, Files, Metadata, TryLockError};
use std::io::ErrorKind;
use std::os::unix::fs::{MetadataExt, OpenOptionsExt};

// The mode of a file that its owner alone reads and writes.
const OWNER_ALONE: u32 = 0o600;

/// Opens the file and locks it for as long as it is open. A file that isn't there is made; no link is followed, and
/// nothing is opened but a file. Nothing was written to it where it is refused.
pub fn open_journal<R: Files<File = File>>(
    rt: &R,
    folder: &str,
    path: &str,
) -> Result<File, FileFault> {
    let file = match fs::symlink_metadata(rt, path) {
        Ok(found) => reopen(rt, path, &found)?,
        Err(error) if error.kind() == ErrorKind::NotFound => make_journal(rt, path)?,
        Err(error) => return Err(FileFault::from(error)),
    };
    match file.try_lock() {
        Ok(()) => {}
        Err(TryLockError::WouldBlock) => return Err(FileFault::Locked),
        Err(TryLockError::Error(error)) => return Err(FileFault::from(error)),
    }
    // A file without a byte may have been made by a run that was cut off before the folder was on the disk.
    if file.metadata()?.len() == 0 {
        File::open(rt, folder)?.sync_all()?;
    }
    Ok(file)
}

// Opens what was found, if it still stands there.
fn reopen<R: Files<File = File>>(rt: &R, path: &str, found: &Metadata) -> Result<File, FileFault> {
    if !found.is_file() {
        return Err(FileFault::NotAFile);
    }
    let file = File::options().read(true).write(true).open(rt, path)?;
    let opened = file.metadata()?;
    if opened.is_file() && opened.dev() == found.dev() && opened.ino() == found.ino() {
        Ok(file)
    } else {
        Err(FileFault::NotAFile)
    }
}

// A link that has come meanwhile isn't followed.
fn make_journal<R: Files<File = File>>(rt: &R, path: &str) -> Result<File, FileFault> {
    let file = File::options()
        .read(true)
        .write(true)
        .create_new(true)
        .mode(OWNER_ALONE)
        .open(rt, path)?;
    Ok(file)
}
