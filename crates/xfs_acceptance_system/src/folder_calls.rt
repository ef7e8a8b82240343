//! The files of a working folder.

use crate::files::{
    folder_of, has_mode, holds, in_folder, makes_folder, removes, removes_folder, writes,
};
use std::fs;
use std::fs::File;
use std::io::{ErrorKind, Write};
use std::os::unix::fs::{MetadataExt, symlink};
use std::test::Fail;
use xfs_simulated::OWN;
use xfs_start::{FileFault, Folder, JOURNAL_FILE, KEY_FILE, ORIGINS_FILE, SEED_FILE, StartFault};

type OwnFolder<'a> = Folder<'a, HostRuntime>;

fn is_refused(folder: &OwnFolder<'_>, why: FileFault) -> bool {
    match folder.journal() {
        Ok(_) => false,
        Err(fault) => {
            fault
                == StartFault::CannotOpen {
                    file: JOURNAL_FILE,
                    why,
                }
        }
    }
}

fn opens(folder: &OwnFolder<'_>) -> Option<File> {
    folder.journal().ok()
}

fn is_its_owners(rt: &HostRuntime, journal: &str) -> bool {
    match fs::metadata(rt, journal) {
        Ok(metadata) => metadata.mode() & 0o777 == 0o600,
        Err(_) => false,
    }
}

// Whether nobody else opens the journal while this file is open, in which some bytes are written.
fn is_locked(folder: &OwnFolder<'_>, mut file: File) -> bool {
    file.write_all(b"some bytes").is_ok() && is_refused(folder, FileFault::Locked)
}

#[test]
fn a_journal_is_its_owners_and_one_servers(rt: HostRuntime) -> Result<(), Fail> {
    let path = folder_of(&rt, "journal")?;
    let journal = in_folder(&rt, &path, JOURNAL_FILE)?;
    let folder = Folder::new(&rt, &path);
    let file = opens(&folder).ok_or("the journal")?;
    assert!(rt; is_its_owners(&rt, &journal));
    assert!(rt; is_locked(&folder, file));
    // it is opened again as it was
    let _again = opens(&folder).ok_or("the journal again")?;
    assert!(rt; holds(&rt, &journal, b"some bytes"));
    assert!(rt; removes_folder(&rt, &path));
    Ok(())
}

// Whether a link in the journal's place is refused, and what it leads to is left as it was.
fn is_no_link(rt: &HostRuntime, folder: &OwnFolder<'_>, journal: &str, other: &str) -> bool {
    symlink(rt, other, journal).is_ok()
        && is_refused(folder, FileFault::NotAFile)
        && writes(rt, other, b"kept")
        && is_refused(folder, FileFault::NotAFile)
        && holds(rt, other, b"kept")
        && removes(rt, journal)
}

#[test]
fn a_link_or_a_folder_is_no_journal(rt: HostRuntime) -> Result<(), Fail> {
    let path = folder_of(&rt, "link")?;
    let journal = in_folder(&rt, &path, JOURNAL_FILE)?;
    let other = in_folder(&rt, &path, "other")?;
    let folder = Folder::new(&rt, &path);
    assert!(rt; is_no_link(&rt, &folder, &journal, &other));
    assert!(rt; makes_folder(&rt, &journal) && is_refused(&folder, FileFault::NotAFile));
    assert!(rt; removes_folder(&rt, &path));
    assert!(rt; is_refused(&folder, FileFault::System(ErrorKind::NotFound)));
    Ok(())
}

// Whether the key is 32 times the byte that was written, and the seed is not told.
fn has_its_key(folder: &OwnFolder<'_>) -> bool {
    match folder.secrets() {
        Ok(secrets) => secrets.key == [0x2a; 32] && secrets.seed == OWN.seed,
        Err(_) => false,
    }
}

fn has_own_secrets(folder: &OwnFolder<'_>) -> bool {
    folder.secrets().ok() == Some(OWN)
}

fn is_open(folder: &OwnFolder<'_>, file: &str) -> Option<bool> {
    folder.is_open_to_others(file).ok()
}

// Whether a key's file that others may read is told, and no other.
fn open_ones_are_told(rt: &HostRuntime, folder: &OwnFolder<'_>, key: &str) -> bool {
    has_mode(rt, key, 0o640)
        && is_open(folder, KEY_FILE) == Some(true)
        && has_mode(rt, key, 0o600)
        && is_open(folder, KEY_FILE) == Some(false)
        && is_open(folder, SEED_FILE) == Some(false)
}

fn has_a_bad_seed(folder: &OwnFolder<'_>) -> bool {
    matches!(
        folder.secrets(),
        Err(StartFault::BadSecret { file: SEED_FILE })
    )
}

fn has_an_unread_seed(folder: &OwnFolder<'_>) -> bool {
    matches!(
        folder.secrets(),
        Err(StartFault::UnreadSecret {
            file: SEED_FILE,
            why: _
        })
    )
}

fn has_an_unread_key(folder: &OwnFolder<'_>) -> bool {
    matches!(
        folder.secrets(),
        Err(StartFault::UnreadSecret {
            file: KEY_FILE,
            why: _
        })
    )
}

#[test]
fn secrets_are_those_of_their_files(rt: HostRuntime) -> Result<(), Fail> {
    let path = folder_of(&rt, "secrets")?;
    let key = in_folder(&rt, &path, KEY_FILE)?;
    let seed = in_folder(&rt, &path, SEED_FILE)?;
    let digits = "2a".repeat(rt.alloc(), 32)?;
    let folder = Folder::new(&rt, &path);
    assert!(rt; has_own_secrets(&folder));
    assert!(rt; writes(&rt, &key, digits.as_bytes()) && has_its_key(&folder));
    assert!(rt; open_ones_are_told(&rt, &folder, &key));
    assert!(rt; writes(&rt, &seed, b"2a2a") && has_a_bad_seed(&folder) && removes(&rt, &seed));
    // a folder in a file's place can't be read
    assert!(rt; makes_folder(&rt, &seed) && has_an_unread_seed(&folder) && removes(&rt, &key));
    assert!(rt; makes_folder(&rt, &key) && has_an_unread_key(&folder));
    assert!(rt; removes_folder(&rt, &path));
    Ok(())
}

fn has_origins(folder: &OwnFolder<'_>, lines: &[u8]) -> bool {
    match folder.origins() {
        Ok(origins) => origins.as_slice() == lines,
        Err(_) => false,
    }
}

#[test]
fn origins_are_those_of_their_file(rt: HostRuntime) -> Result<(), Fail> {
    let path = folder_of(&rt, "origins")?;
    let file = in_folder(&rt, &path, ORIGINS_FILE)?;
    let folder = Folder::new(&rt, &path);
    assert!(rt; has_origins(&folder, b""));
    assert!(rt; writes(&rt, &file, b"null\n") && has_origins(&folder, b"null\n"));
    assert!(rt; removes_folder(&rt, &path));
    Ok(())
}
