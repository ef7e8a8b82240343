//! What main hands to the program: the simulated machine with its units, notes, limits, mechanism and disk, its key and
//! seed, what its bench is set up with, and the machine that goes on where a journal leaves it.
#![tactic(auto)]

mod leaving;
mod machine;
mod news;
mod resume;
mod secret;
mod setup;

pub use leaving::places_left;
pub use machine::{
    KEY, LIMITS, SEED, core_failing, core_on, core_under, empty, mechanism, places, quiet_bench,
    second_core, units,
};
pub use news::{card_news, key_news};
pub use resume::{LIFE, resume_core};
pub use secret::{OWN, SECOND, Secrets, secret_in};
pub use setup::Setup;
