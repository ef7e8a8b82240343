//! The machine behind the turn lock: callers that make one call a turn, over them the boards of
//! sessions and workers, and the machine served, its connections and its workers each with a caller of
//! its own.
#![tactic(auto)]

mod backend;
mod caller;
mod client;
mod device;
mod served;
mod shared;

pub use caller::{Caller, LockName};
pub use client::ClientBoard;
pub use device::DeviceBoard;
pub use served::{Served, serve_connections};
pub use shared::{Entry, SharedMachine, close, open};
