/// Why a record was not appended.
#[derive(Clone, Copy, Debug, PartialEq, Eq)]
pub enum AppendFault {
    /// The disk failed in this call: its count of faults rose. The journal is shut.
    Disk,
    /// A limit would be passed.
    Full,
    Memory,
    /// The disk failed in an earlier call, and the journal wasn't read again since.
    Shut,
}

/// Why a journal wasn't carried over to version 2.
#[derive(Clone, Copy, Debug, PartialEq, Eq)]
pub enum MigrateFault {
    /// The disk failed in this call: its count of faults rose. The journal goes on as it was.
    Disk,
    /// The disk failed in an earlier call, and the journal wasn't read again since.
    Shut,
}

/// Why bytes weren't read as a record.
#[derive(Clone, Copy, PartialEq, Eq)]
pub enum BodyFault {
    /// They are the body of no record.
    Form,
    Memory,
}

/// Why a disk isn't mounted as a journal.
#[derive(Clone, Copy, Debug, PartialEq, Eq)]
pub enum MountFault {
    /// Its bytes are no journal from this place on: 0 where the first seven are others, else the place of the gate byte
    /// whose record isn't whole or isn't of the format, or their length where no byte follows the last record.
    NotJournal { at: u64 },
    /// The disk failed in this call: its count of faults rose.
    Disk,
    Memory,
}
