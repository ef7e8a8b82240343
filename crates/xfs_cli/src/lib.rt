//! The top call of the program, and the commands that it runs.
#![tactic(auto)]

mod commands;
mod words;

pub use commands::fleet::fleet;
pub use commands::load::load;
pub use commands::replay::command::replay;
pub use commands::run::run;
pub use words::command_of;
pub use xfs_lines::{Ended, audit, guard, host, status, tell_usage, token};
