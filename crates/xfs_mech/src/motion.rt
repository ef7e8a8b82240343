use xfs_base::{Counts, Kind};

/// One entry of the mechanism's list.
#[derive(Clone, Copy, Debug, PartialEq, Eq)]
pub enum Motion {
    /// What an order moved. The number is that of the order's record in the journal.
    Moved {
        number: u64,
        kind: Kind,
        moved: Counts,
        diverted: Counts,
    },
    /// The customer took these notes from the outlet.
    Taken {
        counts: Counts,
    },
    /// The operator added so many notes to a unit, which counts from 1.
    Loaded {
        unit: u8,
        count: u32,
    },
}

/// What a call of the mechanism did: the notes that reached the place that was meant, those that
/// went to rejected instead, and whether it failed.
#[derive(Clone, Copy, Debug, PartialEq, Eq)]
pub struct Outcome {
    pub moved: Counts,
    pub diverted: Counts,
    pub failed: bool,
}
