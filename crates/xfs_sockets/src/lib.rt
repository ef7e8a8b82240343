//! Connections over TCP and WebSocket (RFC 6455): a link over a socket, and doors that listen on
//! 127.0.0.1.
#![tactic(auto)]

mod dialling;
mod doors;
mod entrance;
mod link;
mod socket;
mod stream;
mod visitors;
mod wire;

pub use doors::{OpenFault, Ports, TcpDoors};
pub use entrance::{Entrance, Port, is_broken};
pub use link::SocketLink;
pub use visitors::{Origins, is_own_host};
