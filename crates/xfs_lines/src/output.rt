//! What a command writes, and its status.

pub mod last_line;
pub mod refused;
pub mod status;
pub mod text;
