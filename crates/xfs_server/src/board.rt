ghost use Rattle.std.specs.Prelude.{◌≡◌};
ghost use Rattle.xfs_server.specs.Boards.{BoardLog, after_post, after_turn, after_fetch};

use xfs_base::{Bytes, Memory};

/// What a turn of a board did.
#[derive(Clone, Copy, Debug, PartialEq, Eq)]
pub enum Work2 {
    /// A step was done.
    Did,
    /// There was nothing to do.
    Idle,
}

/// What stands behind one connection. The counts stand still at the last value of 64 bits.
pub trait Board {
    ghost log: { Self → BoardLog };

    /// Posts one text of the client.
    fn post(&mut self, text: &[u8]) -> Result<(), Memory>
        ensures { log self.new ≡ after_post (log self.old) text.now result };

    /// Does one step of the service's work.
    fn turn(&mut self) -> Result<Work2, Memory>
        ensures { log self.new ≡ after_turn (log self.old) };

    /// Hands over the frames that wait for the client, in order.
    fn frames(&mut self) -> Vec<Bytes>
        ensures { log self.new ≡ after_fetch (log self.old) result.items };
}
