//! A call that was answered, as proofs see it.
use crate::ask::Ask;
use std::snapshot::Snapshot;
use xfs_base::Currency;

/// A call that was answered. Only proofs read it, so none is kept when the program runs.
#[derive(Drop)]
pub(crate) enum Event {
    Opened {
        account: u64,
        currency: Currency,
        balance: u64,
    },
    Asked(Snapshot<Ask>),
}
