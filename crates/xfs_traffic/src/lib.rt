//! What goes between clients, pending commands and devices: connections with the frames that wait for them, a queue a
//! service, and what is heard, accepted and answered. Nothing here calls the guard but a step of a running plan.
#![tactic(auto)]

mod accepting;
mod answering;
mod asks;
mod connection;
mod connections;
mod devices;
mod frames;
mod job;
mod notices;
mod queues;
mod reading;
mod running_plan;
mod stopping;
mod traffic;

pub use accepting::{Sender, accept, acceptance_reply, refuse, refuse_text};
pub use answering::answer_first;
pub use asks::known_of;
pub use connection::Connection;
pub use connections::{Connections, is_service};
pub use devices::{Devices, fail_card, fail_keys, press_key, put_card, take_card};
pub use frames::Frames;
pub use job::{Ask, Ending, Job, Outcome};
pub use notices::{insert_card, nonce_ended};
pub use queues::Queues;
pub use reading::Reading;
pub use running_plan::RunningPlan;
pub use stopping::{running_command, stop_running, time_out};
pub use traffic::Traffic;
