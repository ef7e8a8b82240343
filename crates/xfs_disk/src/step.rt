use std::vec::Vec;

/// What changed a disk in memory, with what stood there before.
#[derive(Drop)]
pub(crate) enum Step {
    /// `len` bytes at `at`, in place of `was`.
    Write { at: usize, len: usize, was: Vec<u8> },
    /// Another length, in place of the whole of `was`.
    Resize { len: u64, was: Vec<u8> },
    /// A sync that succeeded. It stands in histories alone, which only proofs read.
    Sync,
}
