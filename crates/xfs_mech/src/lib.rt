//! The mechanism of the dispenser: what it is told, what it tells, and its list of motions; and
//! what watches the card slot, the key pad and the outlet.
#![tactic(auto)]

mod counts;
mod fault;
mod key;
mod limits;
mod mechanism;
mod motion;
mod order;
mod places;
mod silent;
mod sim;
mod sim_watch;
mod touch;
mod tracks;
mod watch;

pub use counts::lies_in;
pub use fault::Fault;
pub use key::KeyName;
pub use limits::{MOST_IN_A_UNIT, MOST_NOTES, can_load, places_fit, totals};
pub use mechanism::Mechanism;
pub use motion::{Motion, Outcome};
pub use order::Order;
pub use places::{after_loading, after_order, after_taking};
pub use silent::SilentMech;
pub use sim::SimMech;
pub use sim_watch::SimWatch;
pub use touch::{News, Touch};
pub use tracks::Tracks;
pub use watch::{TakerWatch, Watch};
pub use xfs_base::Kind;
