//! Denominations of cash: the fewest notes for an amount, and whether counts may be dispensed.
#![tactic(auto)]

mod asked;
mod mix;
mod reach;
mod steps;

pub use asked::{CountFault, check};
pub use mix::{MixFault, least};
