//! What was presented under the last nonce, as a token that the device makes and a host checks.
#![tactic(auto)]

mod checking;
mod currencies;
mod faults;
mod laws;
mod making;
mod nonce;
mod reading;
mod segment;
mod shown;
mod signing;
mod sums;
mod text;

pub use checking::check;
pub use faults::{CheckFault, EvidenceFault};
pub use laws::every_evidence;
pub use making::{evidence, evidence_under};
pub use nonce::is_nonce;
pub use shown::Shown;
