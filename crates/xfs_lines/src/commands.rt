//! The commands, one folder each.

pub mod audit;
pub mod guard;
pub mod host;
pub mod token;
