//! A command over two sides: what answers its lines, each at its side.
#![tactic(auto)]

mod mark;
mod two_sides;

pub use mark::mark_lines;
pub use two_sides::{TwoSides, answer_sides};
