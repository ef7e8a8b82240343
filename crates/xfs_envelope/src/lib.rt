//! The envelope of messages, both ways: commands are read, and acknowledges, events, completions
//! and unsolicited messages are written and read back.
#![tactic(auto)]

mod answer;
mod code;
mod command;
mod fields;
mod messages;
mod name;
mod short;

pub use answer::{Answer, AnswerFault, read_answer};
pub use code::{Code, Status};
pub use command::{Envelope, LONGEST_MESSAGE, Refuse, Why, read};
pub use messages::{acknowledge, completion, completion_of_text, event, unsolicited};
pub use name::{Name, NameFault};
