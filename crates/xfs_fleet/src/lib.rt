//! Two machines side by side, each with its own key, mechanism and disk: what comes to one leaves the other as it is.
#![tactic(auto)]

mod boot;
mod ending;
mod fail;
mod fleet;
mod side;

pub use fail::{FleetFail, Pair};
pub use fleet::Fleet;
pub use side::Side;
