//! The commands of the cash dispenser.
#![tactic(auto)]

mod ask;
mod begun;
mod carrying;
mod command;
mod commands;
mod denominate;
mod grant;
mod laws;
mod named;
mod notes;
mod part;
mod payload;
mod plan;
mod progress;
mod refusal;
mod steps;

pub use ask::{CashAsk, CashFail, read_ask};
pub use begun::Begun;
pub use carrying::{carry_out, stack_all};
pub use command::CashCommand;
pub use commands::begin;
pub use grant::{Grant, grant_to_stack};
pub use laws::dispenses_are_complete;
pub use named::Named;
pub use notes::Notes;
pub use part::Part;
pub use plan::Plan;
pub use progress::Progress;
pub use refusal::Refusal;
pub use steps::work;
