ghost use Rattle.std.specs.Prelude.{◌≡◌};
ghost use Rattle.xfs_base.specs.Causes.{IfTold};
ghost use Rattle.xfs_server.specs.Links.{LinkLog, after_take, after_give, IsNextOf};

use xfs_base::Bytes;

/// What a call of `take` found.
#[derive(Debug, Drop)]
pub enum Taking {
    /// The next text.
    Text(Bytes),
    /// Nothing has come.
    Quiet,
    /// The peer has closed the connection, and no text is to come.
    Closed,
    /// The connection failed. The count of faults rose by one.
    Failed,
    /// Memory ran out.
    Memory,
}

/// Why a text was not given. Nothing of it is sent.
#[derive(Clone, Copy, Debug, PartialEq, Eq)]
pub enum GiveFault {
    /// The connection failed. The count of faults rose by one.
    Failed,
    /// Memory ran out.
    Memory,
}

/// One end of a connection that carries whole texts, such as a WebSocket (RFC 6455). Its counts stand
/// still at the last value of 64 bits.
pub trait Link: Drop {
    ghost log: { Self → LinkLog };

    /// Takes the next text, if one has come. It comes back where none has.
    fn take(&mut self) -> Taking
        ensures log { log self.new ≡ after_take (log self.old) result }
        ensures next { IfTold (log self.old).coming (λ texts. IsNextOf texts result) };

    /// Gives a text to be sent behind those given before: at the latest with the next `take`, or as the link ends.
    fn give(&mut self, text: &[u8]) -> Result<(), GiveFault>
        ensures { log self.new ≡ after_give (log self.old) text.now result };
}
