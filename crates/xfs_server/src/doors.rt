ghost use Rattle.std.specs.Prelude.{◌≡◌, IfOk};
ghost use Rattle.xfs_server.specs.Doors.{DoorLog, after_next, after_dial};
ghost use Rattle.xfs_server.specs.Links.{IsFresh};

use crate::Link;
use xfs_base::Service;

/// What a call of `next` found.
#[derive(Debug, Drop)]
pub enum Door<L> {
    /// A connection to a service.
    Came(Service, L),
    /// Nobody has come.
    Quiet,
    /// The doors failed. Their count of faults rose by one.
    Failed,
    /// Memory ran out.
    Memory,
}

/// Why no connection was dialled.
#[derive(Clone, Copy, Debug, PartialEq, Eq)]
pub enum DialFault {
    /// No connection was reached. The count of faults rose by one.
    Failed,
    /// Memory ran out.
    Memory,
}

/// Where connections come in, and are dialled. The counts stand still at the last value of 64 bits.
pub trait Doors {
    type Link: Link + Send;

    ghost log: { Self → DoorLog };

    /// Hands over the next connection, if one has come. It comes back where none has.
    fn next(&mut self) -> Door<Self::Link>
        ensures { log self.new ≡ after_next (log self.old) result };

    /// Dials a service. The link has taken and sent nothing.
    fn dial(&mut self, service: Service) -> Result<Self::Link, DialFault>
        ensures log { log self.new ≡ after_dial (log self.old) service result }
        ensures fresh { IfOk result (λ link. IsFresh (Self.Link.log link)) };
}
