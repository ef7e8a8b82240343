//! The card reader: what its commands ask for, and the small machine of its slot.
#![tactic(auto)]

mod ask;
mod command;
mod payload;
mod place;
mod state;

pub use ask::{CardAsk, read_card};
pub use command::CardCommand;
pub use state::{CardEffect, CardEvent, CardState, step};
