ghost use Rattle.std.specs.Prelude.{◌≡◌, []};
ghost use Rattle.xfs_model.specs.State.{no_commands};

use crate::connections::Connections;
use crate::queues::Queues;
use std::alloc::Global;

/// What goes between a machine and its clients: the open connections with the frames that wait, and the pending
/// commands of each service.
#[derive(Drop)]
pub struct Traffic {
    pub connections: Connections,
    pub queues: Queues,
}

impl Traffic {
    /// No connection, and no command.
    pub fn new(alloc: Global) -> Traffic
        ensures { result ≡ record { connections = []; queues = no_commands } }
    {
        Traffic {
            connections: Connections::new(alloc),
            queues: Queues::new(alloc),
        }
    }
}
