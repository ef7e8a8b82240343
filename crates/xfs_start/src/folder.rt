//! The files of a working folder.

use crate::bench_file::setup_in;
use crate::bench_line::BenchFault;
use crate::fault::{FileFault, StartFault};
use crate::journal::open_journal;
use std::alloc::{Alloc, Global};
use std::fs;
use std::fs::{File, Files};
use std::io::ErrorKind;
use std::os::unix::fs::MetadataExt;
use xfs_simulated::{OWN, Secrets, Setup, secret_in};

/// The key of the tokens.
pub const KEY_FILE: &str = "xfs.key";

/// The seed of the nonces.
pub const SEED_FILE: &str = "xfs.seed";

/// What the bench is set up with.
pub const BENCH_FILE: &str = "xfs.bench";

/// The journal.
pub const JOURNAL_FILE: &str = "xfs.journal";

/// The origins of the pages that are let in.
pub const ORIGINS_FILE: &str = "xfs.origins";

// The bits of a file's mode by which others than its owner read or write it.
const OTHERS: u32 = 0o066;

/// A folder, by its path.
#[derive(Clone, Copy)]
pub struct Folder<'a, R> {
    rt: &'a R,
    path: &'a str,
}

impl<'a, R: Files<File = File> + Alloc<A = Global>> Folder<'a, R> {
    /// The folder of this path.
    pub fn new(rt: &'a R, path: &'a str) -> Folder<'a, R> {
        Folder { rt, path }
    }

    /// The key and the seed: those of their files, and of a file that isn't there the machine's own.
    pub fn secrets(&self) -> Result<Secrets, StartFault> {
        Ok(Secrets {
            key: self.secret(KEY_FILE, OWN.key)?,
            seed: self.secret(SEED_FILE, OWN.seed)?,
        })
    }

    fn secret(&self, file: &'static str, own: [u8; 32]) -> Result<[u8; 32], StartFault> {
        match fs::read(self.rt, self.path_of(file)?) {
            Ok(text) => secret_in(&text).ok_or(StartFault::BadSecret { file }),
            Err(error) => match error.kind() {
                ErrorKind::NotFound => Ok(own),
                ErrorKind::OutOfMemory => Err(StartFault::Memory),
                why => Err(StartFault::UnreadSecret { file, why }),
            },
        }
    }

    /// What the bench is set up with: the lines of its file, and without that file the fixed bench.
    pub fn setup(&self) -> Result<Setup, StartFault> {
        let setup = match fs::read(self.rt, self.path_of(BENCH_FILE)?) {
            Ok(text) => setup_in(self.rt.alloc(), Some(&text)),
            Err(error) => match error.kind() {
                ErrorKind::NotFound => setup_in(self.rt.alloc(), None),
                ErrorKind::OutOfMemory => Err(BenchFault::Memory),
                why => return Err(StartFault::UnreadBench { why }),
            },
        };
        setup.map_err(|fault| match fault {
            BenchFault::Bad => StartFault::BadBench,
            BenchFault::Memory => StartFault::Memory,
        })
    }

    /// The text of the origins; none where there is no file of them.
    pub fn origins(&self) -> Result<Vec<u8>, StartFault> {
        match fs::read(self.rt, self.path_of(ORIGINS_FILE)?) {
            Ok(text) => Ok(text),
            Err(error) if error.kind() == ErrorKind::NotFound => Ok(Vec::new(self.rt.alloc())),
            Err(error) => Err(StartFault::of_file(ORIGINS_FILE, FileFault::from(error))),
        }
    }

    /// The journal's file, for this program alone as long as it is open. It is made where there is none, for its owner
    /// alone, and never cut.
    pub fn journal(&self) -> Result<File, StartFault> {
        match open_journal(self.rt, self.path, self.path_of(JOURNAL_FILE)?.as_str()) {
            Ok(file) => Ok(file),
            Err(why) => Err(StartFault::of_file(JOURNAL_FILE, why)),
        }
    }

    /// Whether a file is there that others than its owner may read or write.
    pub fn is_open_to_others(&self, file: &str) -> Result<bool, StartFault> {
        match fs::metadata(self.rt, self.path_of(file)?) {
            Ok(found) => Ok(found.mode() & OTHERS != 0),
            Err(_) => Ok(false),
        }
    }

    fn path_of(&self, file: &str) -> Result<String, StartFault> {
        match format!(in self.rt.alloc(); "{}/{file}", self.path) {
            Ok(path) => Ok(path),
            Err(_) => Err(StartFault::Memory),
        }
    }
}
