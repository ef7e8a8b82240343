use crate::{Survey, Text};
use xfs_base::{Counts, Kind};

/// One record of the journal. A record's number is its place, from 1.
#[derive(Debug, Drop)]
pub enum Rec {
    /// A nonce was issued: its number among the issues, and the word that the seed gave for it.
    Issue { number: u64, word: u64 },
    /// The live nonce was cleared.
    Clear,
    /// The life of the live nonce was over.
    Expire,
    /// The machine started or was reset: where its notes lay then.
    Boot { places: Survey },
    /// The machine started or was reset: how many nonces were issued before it, and where its notes lay then. It
    /// stands in files of version 2 where a Boot stood.
    Start { issues: u64, places: Survey },
    /// This token serves the live nonce from now on.
    Bind { token: Text },
    /// The mechanism may move these notes.
    Order { kind: Kind, counts: Counts },
    /// What the order before it moved and diverted.
    Done { moved: Counts, diverted: Counts },
    /// The operator added so many notes to a unit, which counts from 1.
    Load { unit: u8, count: u32 },
}

// A record in memory takes at most 72 bytes beside a token's text or the places of a boot: the two counts of a Done, and the tag.
const _: () = prove!(size_of::<Rec>() <= 72);
