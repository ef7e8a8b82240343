//! Why there is no evidence, and why a text is none.

/// Why no evidence was made.
#[derive(Clone, Copy, Debug, PartialEq, Eq)]
pub enum EvidenceFault {
    /// The records have no Issue.
    NoIssue,
    /// The order to present with this number, the first such in the segment of the last Issue, has no Done: it isn't
    /// known what it put out.
    Unsettled { order: u64 },
    Memory,
}

/// Why a text is no evidence, the first that applies.
#[derive(Clone, Copy, Debug, PartialEq, Eq)]
pub enum CheckFault {
    /// It spells no token.
    NoToken,
    /// The token carries another nonce.
    OtherNonce,
    /// The token's HMAC isn't that of its bytes under the key.
    WrongMac,
    /// The token's pairs aren't those of an evidence.
    NotEvidence,
    Memory,
}
