//! The turn lock: its value keeps a list that only grows, and each seat knows how much of that list it has seen.
#![tactic(auto)]

mod chronicle;
mod held;
mod rule;
mod seat;
mod sleepers;
mod turn;

pub use chronicle::Chronicle;
pub use held::Held;
pub use rule::rule_of_turns;
pub use seat::Seat;
pub use turn::Turn;
