//! The command `guard`.

pub mod answer;
pub mod command;
pub mod player;
pub mod verbs;
