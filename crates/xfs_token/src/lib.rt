//! The dispense token: its one spelling, both ways, its HMAC and its amounts.
#![tactic(auto)]

mod amount;
mod digits;
mod dispense;
mod faults;
mod grammar;
mod key;
mod minting;
mod money;
mod pair;
mod reader;
mod reading;
mod signing;
mod text;
mod token;

pub use amount::read_amount;
pub use digits::read_digits;
pub use dispense::amounts;
pub use faults::TokenFault;
pub use key::TokenKey;
pub use minting::{MakeFault, make};
pub use money::Amounts;
pub use reader::read;
pub use signing::{WriteFault, genuine, write};
pub use text::MAC_FIELD;
pub use token::{BuildFault, Token};
