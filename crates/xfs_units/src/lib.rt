//! The six places of notes, kept up to date by each move, and the payloads that tell of them.
#![tactic(auto)]

mod added;
mod book;
mod payloads;

pub use added::{Added, AddedFault, read_added, unit_of};
pub use book::Book;
pub use payloads::{name_of, storage, text_of};
