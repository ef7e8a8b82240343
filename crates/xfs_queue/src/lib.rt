//! The pending commands of a service, in order of arrival.
#![tactic(auto)]

mod command;
mod deadlines;
mod queue;

pub use command::{Command, Ids, Line, OfferFault, Pending, Stage, Ticket};
pub use queue::Queue;
