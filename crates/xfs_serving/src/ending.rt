/// How a server ended.
#[derive(Clone, Copy, Debug, PartialEq, Eq)]
pub enum Ending {
    /// All connections came, and their sessions have ended.
    Served,
    /// The doors failed. Their count of faults rose.
    Failed,
    /// Memory ran out: at the doors, at the making of what stands behind a session or a worker, or in a worker.
    Memory,
}
