//! The loop of a server: it takes connections at its doors, serves each in a session of its own, has a
//! worker at each device, and ends when all sessions have ended.
#![tactic(auto)]

mod backend;
mod ending;
mod hall;
mod ringing;
mod server;
mod session;
mod staff;
mod watches;
mod worker;

pub use backend::{Backend, Refusal};
pub use ending::Ending;
pub use server::serve;
pub use watches::{CardWatch, KeyWatch};
