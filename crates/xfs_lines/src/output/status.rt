//! The statuses of the program.

/// The input was read to its end, a load was played whole, a server took its connections, or a withdrawal ended.
pub const READ_TO_END: u8 = 0;
/// The words are not of the table of commands.
pub const USAGE: u8 = 2;
/// The source failed.
pub const READ_FAULT: u8 = 3;
/// A line is no script line; the lines before it are done.
pub const NOT_A_LINE: u8 = 4;
/// The sink failed.
pub const WRITE_FAULT: u8 = 5;
/// The disk failed in the boot, in a restart, or when a server settled its open order at the end.
pub const DISK_FAULT: u8 = 6;
/// The disk's bytes are no journal.
pub const NOT_A_JOURNAL: u8 = 7;
/// Want of memory.
pub const NO_MEMORY: u8 = 8;
/// The doors failed, or the link that `client` dialled.
pub const LINK_FAILED: u8 = 9;
/// The source gave 67,108,864 bytes.
pub const INPUT_TOO_LONG: u8 = 10;
/// The link that `client` dialled stayed quiet.
pub const STAYED_QUIET: u8 = 11;
/// The boot record of the boot or of a restart passes a limit of the journal.
pub const JOURNAL_FULL: u8 = 12;
