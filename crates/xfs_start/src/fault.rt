//! Why the program doesn't start.

use std::fmt::{Display, Formatter};
use std::io::ErrorKind;
use std::{fmt, io};
use xfs_base::Memory;

/// Why a file can't be used.
#[derive(Clone, Copy, PartialEq, Eq)]
pub enum FileFault {
    /// It is a link, a folder or a device.
    NotAFile,
    /// Another program has locked it.
    Locked,
    /// The system refuses it.
    System(ErrorKind),
}

impl Display for FileFault {
    fn fmt<W: fmt::Write>(&self, f: &mut Formatter<W>) -> fmt::Result {
        match self {
            FileFault::NotAFile => f.write_str("no file of its own"),
            FileFault::Locked => f.write_str("another server has it"),
            FileFault::System(kind) => Display::fmt(kind, f),
        }
    }
}

impl From<io::Error> for FileFault {
    fn from(error: io::Error) -> FileFault {
        FileFault::System(error.kind())
    }
}

/// Why the program runs no command.
#[derive(Clone, Copy, PartialEq, Eq)]
pub enum StartFault {
    /// The file of the key or of the seed has another form.
    BadSecret { file: &'static str },
    /// The file of the key or of the seed can't be read.
    UnreadSecret { file: &'static str, why: ErrorKind },
    /// The file of the bench has another form.
    BadBench,
    /// The file of the bench can't be read.
    UnreadBench { why: ErrorKind },
    /// A file can't be opened.
    CannotOpen { file: &'static str, why: FileFault },
    /// A port can't be listened on.
    CannotListen { port: u16, why: ErrorKind },
    /// Want of memory.
    Memory,
}

impl StartFault {
    /// That of a file which can't be opened.
    pub fn of_file(file: &'static str, why: FileFault) -> StartFault {
        if why == FileFault::System(ErrorKind::OutOfMemory) {
            StartFault::Memory
        } else {
            StartFault::CannotOpen { file, why }
        }
    }
}

impl From<Memory> for StartFault {
    fn from(_: Memory) -> StartFault {
        StartFault::Memory
    }
}
