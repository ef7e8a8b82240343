use xfs_mech::Tracks;

/// Where the card is.
#[derive(Debug, Drop)]
pub(crate) enum Place {
    Empty,
    /// There is no card, and a Read of these tracks waits for one.
    Awaited { tracks: [bool; 3] },
    Inside(Tracks),
    AtExit,
}
