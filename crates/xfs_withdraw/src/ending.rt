ghost use Rattle.std.specs.Prelude.{◌≡◌};
ghost use Rattle.xfs_withdraw.specs.Endings.{withdrawal_status};

use xfs_base::Memory;
use xfs_client::HearFault;
use xfs_envelope::{Code, Status};
use xfs_server::{DialFault, GiveFault};

/// The withdrawal ended, or its link closed.
pub const ENDED: u8 = 0;
/// Want of memory.
pub const NO_MEMORY: u8 = 8;
/// No link was reached, or the link failed.
pub const LINK_FAILED: u8 = 9;
/// The link stayed quiet.
pub const STAYED_QUIET: u8 = 11;

/// How a withdrawal over a link ended.
#[derive(Clone, Copy, Debug, PartialEq, Eq)]
pub enum Ending {
    /// The notes were presented.
    Done,
    /// A command ended with this code, which is not `success`.
    Ended(Code),
    /// A command was refused.
    Refused(Status),
    /// A text was no message of a service, or was for no command that waits.
    BadAnswer,
    /// The link told that the service has closed it.
    Closed,
    /// The link was quiet as often as a withdrawal waits.
    Quiet,
    /// The dial or the link failed: the doors' or the link's count of faults rose.
    Failed,
    /// Memory ran out.
    Memory,
}

impl Ending {
    /// The status of the program that ended so.
    pub fn status(self) -> u8
        ensures { result ≡ withdrawal_status self }
    {
        match self {
            Ending::Done
            | Ending::Ended(_)
            | Ending::Refused(_)
            | Ending::BadAnswer
            | Ending::Closed => ENDED,
            Ending::Quiet => STAYED_QUIET,
            Ending::Failed => LINK_FAILED,
            Ending::Memory => NO_MEMORY,
        }
    }
}

impl From<Memory> for Ending {
    ghost use Rattle.std.specs.Prelude.{◌≡◌};
    ghost use Rattle.xfs_withdraw.specs.declared.ending.Ending.TheVariants as Ending;

    ghost from_gives = { λ _ ending. ending ≡ Ending.Memory };

    fn from(_: Memory) -> Self {
        Ending::Memory
    }
}

impl From<GiveFault> for Ending {
    ghost use Rattle.std.specs.Prelude.{◌≡◌};
    ghost use Rattle.xfs_withdraw.specs.Endings.{give_ending};

    ghost from_gives = { λ fault ending. ending ≡ give_ending fault };

    fn from(fault: GiveFault) -> Self {
        match fault {
            GiveFault::Failed => Ending::Failed,
            GiveFault::Memory => Ending::Memory,
        }
    }
}

impl From<DialFault> for Ending {
    ghost use Rattle.std.specs.Prelude.{◌≡◌};
    ghost use Rattle.xfs_withdraw.specs.Endings.{dial_ending};

    ghost from_gives = { λ fault ending. ending ≡ dial_ending fault };

    fn from(fault: DialFault) -> Self {
        match fault {
            DialFault::Failed => Ending::Failed,
            DialFault::Memory => Ending::Memory,
        }
    }
}

impl From<HearFault> for Ending {
    ghost use Rattle.std.specs.Prelude.{◌≡◌};
    ghost use Rattle.xfs_withdraw.specs.Endings.{hear_ending};

    ghost from_gives = { λ fault ending. ending ≡ hear_ending fault };

    fn from(fault: HearFault) -> Self {
        match fault {
            HearFault::Stranger | HearFault::Shape => Ending::BadAnswer,
            HearFault::Memory => Ending::Memory,
        }
    }
}
