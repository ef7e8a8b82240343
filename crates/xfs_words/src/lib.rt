//! The words of the command line, read into the command that they name.
#![tactic(auto)]

mod command;
mod reading;
mod spelling;
mod table;

pub use command::{Command, WordsFault};
pub use reading::read;
pub use spelling::name_command;
