//! What is kept of a transaction.
use crate::ask::Ask;
use crate::decision::Decision;

/// The first ask with a number, and what was decided of it. Its token is made again where it is asked for again.
#[derive(Drop)]
pub(crate) struct First {
    pub(crate) terms: Ask,
    pub(crate) decision: Decision,
}
