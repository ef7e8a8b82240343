//! The client's side: a desk that numbers asks and sorts what is heard by what it answers, and one
//! withdrawal over it; and that both know what they hear of a lawful conversation.
#![tactic(auto)]

mod command;
mod desk;
mod dispense;
mod heard;
pub mod hearing;
mod laws;
mod withdrawal;

pub use desk::{AskFault, Desk, LAST_ID};
pub use heard::{HearFault, Heard};
pub use laws::{
    desks_know_what_they_hear, desks_remember_what_is_pending, withdrawals_know_what_they_hear,
};
pub use withdrawal::{Move, Withdrawal};
