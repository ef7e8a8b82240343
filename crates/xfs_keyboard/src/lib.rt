//! The keyboard: what a DataEntry asks for, and the small machine of an entry, key by key.
#![tactic(auto)]

mod ask;
mod command;
mod entry;
mod keys;
mod payload;
mod state;

pub use ask::{EntryAsk, read_entry};
pub use command::KeysCommand;
pub use keys::KeySet;
pub use state::{KeyEffect, KeyEvent, KeyState, step};
