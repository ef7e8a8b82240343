use xfs_base::ClientId;

/// Where a session passes the gate.
#[derive(Clone, Copy, Debug, PartialEq, Eq)]
pub enum GateAt {
    /// Before a text is posted.
    Post,
    /// Before the board is turned.
    Work,
    /// Once the frames of a turn were given.
    Frames,
}

/// What every session passes on its way, so that a test can hold one back. It promises nothing.
pub trait Gate {
    fn pass(&self, client: ClientId, what: GateAt);
}

/// A gate that holds nobody back.
#[derive(Clone, Copy, Debug, PartialEq, Eq)]
pub struct OpenGate;

impl Gate for OpenGate {
    fn pass(&self, _client: ClientId, _what: GateAt) {}
}
