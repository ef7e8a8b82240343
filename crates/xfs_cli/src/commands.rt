//! The call that runs the words' command, and each command that plays a machine.

pub mod client;
pub mod fleet;
pub mod load;
pub mod replay;
pub mod run;
pub mod serve;
