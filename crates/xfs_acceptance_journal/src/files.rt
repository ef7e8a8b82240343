//! Files of the tests.

use std::fs::File;
use std::io;

/// The file of this path, which is there, opened for reading and writing.
pub fn opened(rt: &HostRuntime, path: &str) -> io::Result<File> {
    File::options().read(true).write(true).open(rt, path)
}
