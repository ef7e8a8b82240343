ghost use Rattle.std.specs.Prelude.{List};
ghost use mathlib.Core.List.{IsPrefix};

use xfs_base::{ClientId, Memory, Service};
use xfs_server::{Board, Tended};

/// Why a connection was not taken.
#[derive(Clone, Copy, Debug, PartialEq, Eq)]
pub enum Refusal {
    /// No further connection has room. It is closed.
    Full,
    /// Memory ran out.
    Memory,
}

/// What the sessions and the workers of a server share, as the server's loop holds it: it makes what
/// stands behind each of them, and takes back what they leave. What it has seen of the shared list is
/// never taken back.
pub trait Backend {
    /// An entry of the shared list.
    type Entry;

    /// What stands behind one connection.
    type Board: Board + Send + Drop;

    /// What stands behind the worker of one device.
    type Tended: Tended + Send + Drop;

    /// What a session or a worker leaves when it ends.
    type Left: Send + Drop;

    /// How much of the shared list it has seen.
    ghost seen: { Self → List Self.Entry };

    /// How much of it was seen by what a session or a worker has left.
    ghost seen_left: { Self.Left → List Self.Entry };

    /// A connection leaves, and this is left of it.
    ghost leaves: { Self.Board → Self.Left → Type 0 };

    /// A worker ends, and this is left of it.
    ghost retires: { Self.Tended → Self.Left → Type 0 };

    /// Takes a connection to a service.
    fn connect(&mut self, service: Service) -> Result<(ClientId, Self::Board), Refusal>
        ensures { IsPrefix (seen self.old) (seen self.new) };

    /// What stands behind the worker of a device's service.
    fn worker(&mut self, service: Service) -> Result<Self::Tended, Memory>
        ensures { IsPrefix (seen self.old) (seen self.new) };

    /// The workers are to end.
    fn close(&mut self)
        ensures { IsPrefix (seen self.old) (seen self.new) };

    /// The connection leaves.
    fn leave(board: Self::Board) -> Self::Left
        ensures { leaves board result };

    /// The worker has ended.
    fn retire(tended: Self::Tended) -> Self::Left
        ensures { retires tended result };

    /// Takes back what a session or a worker has left, with what it had seen.
    fn take_back(&mut self, left: Self::Left)
        ensures own { IsPrefix (seen self.old) (seen self.new) }
        ensures its { IsPrefix (seen_left left) (seen self.new) };
}
