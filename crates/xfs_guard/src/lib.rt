//! The guard of the dispenser: nonces, tokens, and orders over a journal. It alone hands orders to
//! the mechanism.
#![tactic(auto)]

mod ask;
mod bench;
mod bound;
mod budget;
mod check;
mod claim;
mod deny;
mod fail;
mod fit;
mod guard;
mod ledger;
mod machine_core;
mod mounting;
mod nonce;
mod open;
mod replayed;
mod reports;
mod restore;
mod words;

pub use ask::Ask;
pub use bench::Bench;
pub use claim::{Claim, Permit};
pub use deny::Deny;
pub use fail::{BootFail, BootFault};
pub use fit::{Fit, LEAST_BYTES, LEAST_RECORDS};
pub use guard::Guard;
pub use machine_core::Core;
pub use nonce::Nonce;
pub use open::Open;
pub use replayed::motions_of;
pub use xfs_base::Kind;
