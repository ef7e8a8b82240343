use xfs_base::Counts;

/// What came of a touch of the world.
#[derive(Clone, Copy)]
pub enum Touched {
    /// The customer took these notes.
    Taken(Counts),
    /// The mechanism failed: its count of faults rose.
    Fault,
    /// The shutter is closed: an order to retract is written and not yet acted.
    Closed,
    /// It was another touch than that of notes taken.
    Other,
}

/// What came of a step of work.
#[derive(Clone, Copy, PartialEq, Eq)]
pub enum Work {
    /// One case of the work was done.
    Did,
    /// No case applies.
    Idle,
}
