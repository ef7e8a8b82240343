/// A rule that a journal's records and a mechanism's list of motions keep.
#[derive(Clone, Copy, Debug, PartialEq, Eq)]
pub enum Rule {
    /// Records and motions tell the same.
    Agrees,
    /// The n-th nonce carries the number n.
    Numbered,
    /// What was put out since a nonce was issued is worth no more than the token that was bound to it.
    Within,
    /// The motions lead from the places at the beginning to those at the end.
    Places,
}

/// What an audit found.
#[derive(Clone, Copy, Debug, PartialEq, Eq)]
pub enum Verdict {
    /// Every rule is kept.
    Clean,
    /// The first rule that isn't kept, in the order in which `Rule` lists them.
    Broken(Rule),
}
