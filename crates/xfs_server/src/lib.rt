//! Sessions and workers: the loop that serves one connection, the loop that tends one device, and
//! what they stand on: links, doors, gates and boards, with objects in memory.
#![tactic(auto)]

mod backoff;
mod bell;
mod board;
mod doors;
mod gate;
mod link;
mod mem_board;
mod mem_doors;
mod mem_link;
mod mem_tended;
mod session;
mod tended;
mod worker;

pub use backoff::Backoff;
pub use bell::Bell;
pub use board::{Board, Work2};
pub use doors::{DialFault, Door, Doors};
pub use gate::{Gate, GateAt, OpenGate};
pub use link::{GiveFault, Link, Taking};
pub use mem_board::MemBoard;
pub use mem_doors::MemDoors;
pub use mem_link::MemLink;
pub use mem_tended::MemTended;
pub use session::{Over, serve_client};
pub use tended::Tended;
pub use worker::{Over2, round, tend};
