//! The load generator: a client that withdraws round for round from a machine, and the summary of what came of it.
#![tactic(auto)]

mod ask;
mod client;
mod due;
mod playing;
mod presented;
mod resting;
mod summary;
mod text;

pub use ask::Ask;
pub use playing::play;
pub use presented::Presented;
pub use resting::rest;
pub use summary::Summary;
