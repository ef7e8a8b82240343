ghost use Rattle.xfs_server.specs.Links.{IsFresh};

use crate::socket::Socket;
use crate::wire::Wire;
use std::alloc::Global;
use std::marker::Model;
use std::random::RandomSource;
use xfs_base::Clock;
use xfs_server::{GiveFault, Link, Taking};

/// A connection over a WebSocket. A binary message is taken as its bytes; pings are answered, and a close
/// is answered before Closed is told. Texts that were given leave with the next take, or when the link is
/// dropped. A stream that ends without a close has failed. So has a peer that has not taken a frame within ten
/// seconds in all, one that was silent for a minute and then for another, though it was pinged, and one that
/// sends 2 MiB without the end of a message. A message above 1 MiB ends the connection.
#[derive(Drop)]
pub struct SocketLink<'a, R: RandomSource + Drop, C: Clock> {
    alloc: Global,
    wire: Wire<'a, R, C>,
    closed: bool,
    quiets: u64,
    faults: u64,
    // A client's last text; a server's are not kept.
    heard: Option<Vec<u8>>,
}

impl<'a, R: RandomSource + Drop, C: Clock> Model for SocketLink<'a, R, C> {
    ghost use Rattle.std.specs.Prelude.{None};
    ghost use Rattle.xfs_server.specs.Links.{LinkLog};

    ghost Value = { LinkLog };

    ghost view = { λ s. record { coming = None; taken = None; sent = None; closed = s.closed; quiets = s.quiets; faults = s.faults } };
}

impl<'a, R: RandomSource + Drop, C: Clock> SocketLink<'a, R, C> {
    pub(crate) fn new(alloc: Global, socket: Socket<R>, clock: &'a C) -> SocketLink<'a, R, C>
        ensures { IsFresh result }
    {
        let heard = match &socket {
            Socket::Client(_) => Some(Vec::new(alloc)),
            Socket::Server(_) => None,
        };
        SocketLink {
            alloc,
            wire: Wire::new(socket, clock),
            closed: false,
            quiets: 0,
            faults: 0,
            heard,
        }
    }

    /// The last text that a client's link handed over; empty where there is none, or no memory for it.
    pub fn last_text(&self) -> &[u8] {
        match &self.heard {
            Some(text) => text,
            None => b"",
        }
    }
}

impl<'a, R: RandomSource + Drop, C: Clock> Link for SocketLink<'a, R, C> {
    ghost log = { λ log. log };

    fn take(&mut self) -> Taking {
        if self.closed {
            return Taking::Closed;
        }
        let taking = self.wire.take(self.alloc);
        match &taking {
            Taking::Quiet => self.quiets = self.quiets.saturating_add(1),
            Taking::Closed => self.closed = true,
            Taking::Failed => self.faults = self.faults.saturating_add(1),
            Taking::Text(text) => keep(&mut self.heard, text.list()),
            Taking::Memory => {}
        }
        taking
    }

    fn give(&mut self, text: &[u8]) -> Result<(), GiveFault> {
        let given = self.wire.give(self.alloc, text);
        if given == Err(GiveFault::Failed) {
            self.faults = self.faults.saturating_add(1);
        }
        given
    }
}

// Keeps a text in the place of the one before, where one is kept.
fn keep(heard: &mut Option<Vec<u8>>, text: &[u8]) {
    if let Some(kept) = heard {
        kept.clear();
        if kept.extend_from_slice(text).is_err() {
            kept.clear();
        }
    }
}
