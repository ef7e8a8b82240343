//! The command `token`.

pub mod answer;
pub mod command;
