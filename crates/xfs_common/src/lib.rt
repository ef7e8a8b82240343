//! The commands on nonces and those that are done at once, the answers of the interface Common and
//! of the service publisher, where the services are reached, and the errors that commands of all
//! services complete with.
#![tactic(auto)]

mod address;
mod cancel;
mod command;
mod error;
mod payloads;

pub use address::Address;
pub use cancel::{CancelWhat, ReadFail, read_cancel};
pub use command::{CommonCommand, Immediate};
pub use error::ErrorCode;
pub use payloads::{
    Fit2, capabilities, error_code, nonce, nothing, present_status, record_note, services,
    status_text,
};
