//! The command `audit`.

pub mod answer;
pub mod command;
