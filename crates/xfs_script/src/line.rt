use xfs_base::Bytes;

/// One line of the input, without its end.
#[derive(Debug, Drop)]
pub struct Line {
    /// Its place in the input, from 1; skipped lines count too.
    pub number: u64,
    pub text: Bytes,
}

/// Why there is no further line.
#[derive(Clone, Copy, Debug, PartialEq, Eq)]
pub enum LineFault {
    /// The source failed, and no line of what it gave is left that a line feed ends.
    Read,
    /// The source gave 67,108,864 bytes, and no line of them is left that a line feed ends.
    Quota,
    /// The line has more than 70,000 bytes.
    TooLong { number: u64 },
    Memory,
}
