//! The command `client`: one withdrawal over a link that is dialled for it.
#![tactic(auto)]

mod client;
mod ending;
mod last_line;
mod talk;

pub use client::{Withdrawn, withdraw};
pub use ending::{ENDED, Ending, LINK_FAILED, NO_MEMORY, STAYED_QUIET};
pub use talk::MOST_QUIETS;
