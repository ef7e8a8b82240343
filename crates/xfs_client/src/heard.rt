ghost use Rattle.std.specs.Prelude.{◌≡◌};

use xfs_envelope::{AnswerFault, Code, Status};
use xfs_json::Value;

/// What a message of a service says of the asks of its desk.
#[derive(Drop)]
pub enum Heard {
    /// The command was accepted.
    Acknowledged { id: u64 },
    /// The command was not accepted, and is over.
    Refused { id: u64, status: Status },
    /// Something happened while the command was carried out.
    Event { id: u64 },
    /// The command has ended, and its payload is an object.
    Completed { id: u64, code: Code, payload: Value },
    /// Something happened that belongs to no command.
    Unsolicited,
}

/// Why a message was not heard.
#[derive(Clone, Copy, Debug, PartialEq, Eq)]
pub enum HearFault {
    /// It is for a command that was not asked, was refused or is completed; or it is an acknowledge
    /// without an id, and no ask waits for one.
    Stranger,
    /// It is no message of a service.
    Shape,
    Memory,
}

impl From<AnswerFault> for HearFault {
    ghost use Rattle.xfs_client.specs.History.{hear_fault};

    ghost from_gives = { λ fault e. e ≡ hear_fault fault };

    fn from(fault: AnswerFault) -> Self {
        match fault {
            AnswerFault::Shape => HearFault::Shape,
            AnswerFault::Memory => HearFault::Memory,
        }
    }
}
