//! The bank's side: accounts with balances, and a token for each ask that is allowed. Each transaction acts once, however often it is repeated.
#![tactic(auto)]

mod account;
mod ask;
mod changes;
mod decision;
mod event;
mod faults;
mod first;
mod host;
mod laws;
mod ledger;
mod listing;
mod reply;

pub use account::Account;
pub use ask::Ask;
pub use faults::{AskFault, HostFault, OpenFault};
pub use host::Host;
pub use laws::every_history;
pub use reply::Reply;
/// The bytes of a token.
pub use xfs_base::Bytes as Text;
