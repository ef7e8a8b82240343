//! The command `host`.

pub mod answer;
pub mod command;
pub mod text;
