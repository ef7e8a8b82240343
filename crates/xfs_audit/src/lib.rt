//! The audit of a machine from outside: whether a journal's records and a mechanism's list of motions
//! keep the four rules that the guard of the dispenser keeps, and whether texts and frames were a conversation.
#![tactic(auto)]

mod agreement;
mod auditing;
mod claim;
mod conversing;
mod lawful;
mod nonce;
mod numbering;
mod payer;
mod places;
mod reader;
mod rest;
mod told;
mod verdict;
mod way;
mod within;

pub use agreement::agrees;
pub use auditing::audit;
pub use conversing::converse;
pub use lawful::conversations_fit;
pub use numbering::is_numbered;
pub use places::leads_to;
pub use verdict::{Rule, Verdict};
pub use within::is_within;
