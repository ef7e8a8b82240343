//! The lines of a script: how the input is cut into them, and how each command reads one.
#![tactic(auto)]

mod amounts;
mod answerer;
mod answering;
mod audit_fields;
mod audit_line;
mod counts;
mod counts_field;
mod dispense;
mod feed;
mod fill;
mod fleet_line;
mod guard_line;
mod hex_field;
mod host_fields;
mod host_line;
mod last_line;
mod line;
mod lines;
mod number;
mod replay_fields;
mod replay_line;
mod token_line;
mod tracks_field;
mod word;

pub use answerer::{Answerer, Ending, Unanswered};
pub use answering::answer_lines;
pub use audit_line::{AuditLine, read_audit};
pub use counts::counts_text;
pub use feed::{LONGEST_LINE, QUOTA};
pub use fleet_line::{FleetLine, read_fleet};
pub use guard_line::{Given, GuardLine, ScriptFault, read_guard};
pub use host_line::{HostLine, read_host};
pub use last_line::write_last_line;
pub use line::{Line, LineFault};
pub use lines::Lines;
pub use number::read_number;
pub use replay_line::{ReplayLine, read_replay};
pub use token_line::{TokenLine, read_token};
pub use word::{field_of, is_skipped};
