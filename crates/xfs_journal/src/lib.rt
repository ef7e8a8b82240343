//! The journal of the dispenser: its records, and what is read of a list of them.
#![tactic(auto)]

mod block;
mod body;
mod buffer;
mod differ;
mod faults;
mod gate;
mod journal;
mod keep;
mod limits;
mod migrate;
mod mount;
mod page;
mod read;
mod recent;
mod record;
mod remount;
mod scan;
mod survey;
mod text;

pub use faults::{AppendFault, BodyFault, MigrateFault, MountFault};
pub use journal::{Journal, MountFail};
pub use limits::Limits;
pub use read::read_body;
pub use recent::count_issues;
pub use record::Rec;
pub use survey::Survey;
pub use text::Text;
pub use xfs_base::Kind;
