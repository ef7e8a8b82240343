//! A caller of each crate that others can take by itself, proved from that crate's contract alone.
#![tactic(auto)]

mod admission;
#[cfg(test)]
mod calls;
mod counted;
mod hook;
mod next;
mod offer;
mod received;
mod timeout;
mod visits;

pub use admission::{Denial, admit};
pub use counted::append_clear;
pub use hook::signature;
pub use next::take_next;
pub use offer::notes_for;
pub use received::answer;
pub use timeout::timeout_in;
pub use visits::{Visits, visit};
