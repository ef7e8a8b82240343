//! The commands over lines that need no machine, and what every command over lines stands on.
#![tactic(auto)]

mod commands;
mod ended;
mod input;
mod output;
mod usage;

pub use commands::audit::command::audit;
pub use commands::guard::command::guard;
pub use commands::guard::player::NoAnswer;
pub use commands::host::command::host;
pub use commands::token::command::token;
pub use ended::{Ended, Second, cores_of, give_back, give_back_unbooted, give_back_untouched};
pub use input::answer_input;
pub use output::last_line::finish_unbooted;
pub use output::status;
pub use output::text::{line, show_text, with_line_feed};
pub use usage::tell_usage;
