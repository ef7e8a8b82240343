//! A file as a disk.
ghost use Rattle.std.specs.Prelude.{◌≡◌, None, Ok, IfOk, OnOk, OnErr, true, false};
ghost use Rattle.std.proofs.lemmas.Option.{none-some};
ghost use Rattle.xfs_base.specs.Causes.{HasCause};
ghost use Rattle.xfs_disk.specs.Wrapped.{file_faults, has_lost};

use crate::Disk;
use std::fs::File;
use std::io;
use std::os::unix::fs::FileExt;
use xfs_base::Failed;

/// A disk over an open file, which tells nothing. It counts the calls that failed. A system drops the bytes that it could
/// not sync and lets the next sync pass (as Linux does), so once a sync has failed each later one fails too: only a disk that
/// is made anew over the file syncs again.
#[derive(Drop)]
pub struct FileDisk {
    file: File,
    faults: u64,
    // A sync has failed.
    lost: bool,
}

impl FileDisk {
    /// Over this open file, whose bytes are the disk's.
    pub fn new(file: File) -> FileDisk
        ensures faults { file_faults result ≡ 0 }
        ensures whole { has_lost result ≡ false }
    {
        FileDisk {
            file,
            faults: 0,
            lost: false,
        }
    }

    // Syncs the file, where no sync has failed yet.
    fn sync_file(&self) -> io::Result<()>
        ensures lost { has_lost self.now ≡ true → OnOk result ⊥ }
    {
        if self.lost {
            return Err(io::Error::from(io::ErrorKind::Other));
        }
        self.file.sync_all()
    }

    // Counts a failure.
    fn count_failure<T: Drop>(&mut self, answer: io::Result<T>) -> Result<T, Failed>
        ensures cause { HasCause self.old.faults self.new.faults result }
        ensures same { IfOk result (λ x. answer ≡ Ok x) }
        ensures lost { has_lost self.new ≡ has_lost self.old }
    {
        match answer {
            Ok(value) => Ok(value),
            Err(_) => {
                self.faults = self.faults.saturating_add(1);
                Err(Failed)
            }
        }
    }
}

impl Disk for FileDisk {
    ghost held = { λ _. None };

    ghost images = { λ _ _. ⊥ };

    ghost moment = { λ _. 0 };

    ghost images_since = { λ _ _ _. ⊥ };

    ghost faults = { λ d. d.faults };

    ghost as_read = { λ d all told. absurd (none-some all told) };

    ghost counts_now = { λ d t c le now. now };

    ghost only_now = { λ d c left. left };

    fn len(&mut self) -> Result<u64, Failed> {
        let answer = length_of(&self.file);
        self.count_failure(answer)
    }

    fn read(&mut self, at: u64, into: &mut [u8]) -> Result<usize, Failed> {
        let answer = self.file.read_at(into, at);
        self.count_failure(answer)
    }

    fn write_at(&mut self, at: u64, bytes: &[u8]) -> Result<(), Failed> {
        let answer = self.file.write_all_at(bytes, at);
        self.count_failure(answer)
    }

    fn cut(&mut self, len: u64) -> Result<(), Failed> {
        let answer = self.file.set_len(len);
        self.count_failure(answer)
    }

    fn sync(&mut self) -> Result<(), Failed>
        ensures cause { HasCause (file_faults self.old) (file_faults self.new) result }
        ensures fails { has_lost self.old ≡ true → OnOk result ⊥ }
        ensures remembers { OnErr result (has_lost self.new ≡ true) }
        ensures same { OnOk result (has_lost self.new ≡ has_lost self.old) }
    {
        let answer = self.sync_file();
        let result = self.count_failure(answer);
        if result.is_err() {
            self.lost = true;
        }
        result
    }
}

fn length_of(file: &File) -> io::Result<u64> {
    Ok(file.metadata()?.len())
}
