//! The machine in code. What a case of its work does stands in functions of the parts that it changes.
#![tactic(auto)]

mod answer;
mod begin;
mod boot;
mod cases;
mod dispenser;
mod ending;
mod immediate;
mod life;
mod machine;
mod nonce;
mod notes_taken;
mod pass;
mod plan;
mod post;
mod present_status;
mod reboot;
mod tally;
mod touch;
mod work;

pub use answer::{Touched, Work};
pub use machine::Machine;
pub use pass::{JoinFault, Pass};
pub use tally::Tally;
pub use xfs_guard::Core;
pub use xfs_traffic::{Frames, Reading};
