/// So many records must be left of the journal's limits, so that an order has room for its Done, and a boot record behind it.
pub const LEAST_RECORDS: u64 = 3;

/// So many bytes must be left, which those three records never need.
pub const LEAST_BYTES: u64 = 2_048;

/// Whether the journal takes more records.
#[derive(Clone, Copy, Debug, PartialEq, Eq)]
pub enum Fit {
    /// It takes them.
    Ready,
    /// The disk failed, and the journal wasn't read again since.
    Shut,
    /// Fewer than `LEAST_RECORDS` or `LEAST_BYTES` are left of the journal's limits, which count the records in memory
    /// and the bytes of the file, or a restore found no room for its boot record.
    Full,
}
