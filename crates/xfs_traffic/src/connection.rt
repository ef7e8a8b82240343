ghost use Rattle.std.specs.Prelude.{◌≡◌, ◌++◌, ◌∷◌, [], OnOk, OnErr};
ghost use Rattle.xfs_traffic.specs.TakenBack.{all_but_last};

use std::alloc::Global;
use std::marker::Model;
use std::mem;
use xfs_base::{Bytes, ClientId, Memory, Service};

/// An open connection, and the frames that wait for its client.
#[derive(Drop)]
pub struct Connection {
    pub(crate) client: ClientId,
    pub(crate) service: Service,
    waiting: Vec<Bytes>,
}

impl Model for Connection {
    ghost use Rattle.xfs_model.specs.State.{Connection as ConnectionView};

    ghost Value = { ConnectionView };

    ghost view = { λ k. record { client = k.client; service = k.service; waiting = k.waiting.items } };
}

impl Connection {
    pub fn new(alloc: Global, client: ClientId, service: Service) -> Connection
        ensures { result ≡ record { client = client; service = service; waiting = [] } }
    {
        Connection {
            client,
            service,
            waiting: Vec::new(alloc),
        }
    }

    // One more frame waits.
    pub(crate) fn mail(&mut self, frame: Bytes) -> Result<(), Memory>
        ensures ok { OnOk result (self.new ≡ record self.old { waiting = self.old.waiting ++ frame ∷ [] }) }
        ensures err { OnErr result (self.new ≡ self.old) }
        ensures client { self.new.client ≡ self.old.client }
        ensures service { self.new.service ≡ self.old.service }
    {
        match self.waiting.push(frame) {
            Ok(()) => Ok(()),
            Err(_) => Err(Memory),
        }
    }

    // Two more frames wait, or none.
    pub(crate) fn mail_two(&mut self, first: Bytes, last: Bytes) -> Result<(), Memory>
        ensures ok { OnOk result (self.new ≡ record self.old { waiting = self.old.waiting ++ first ∷ last ∷ [] }) }
        ensures err { OnErr result (self.new ≡ self.old) }
        ensures client { self.new.client ≡ self.old.client }
        ensures service { self.new.service ≡ self.old.service }
    {
        if self.waiting.reserve(2).is_err() {
            return Err(Memory);
        }
        self.waiting.push_reserved(first);
        self.waiting.push_reserved(last);
        Ok(())
    }

    // The last frame that waits is dropped.
    pub(crate) fn unmail(&mut self)
        ensures { self.new ≡ record self.old { waiting = all_but_last self.old.waiting } }
    {
        self.waiting.pop();
    }

    // Hands over the frames that wait.
    pub(crate) fn fetch(&mut self, alloc: Global) -> Vec<Bytes>
        ensures handed { result.items ≡ self.old.waiting }
        ensures rest { self.new ≡ record self.old { waiting = [] } }
    {
        mem::replace(&mut self.waiting, Vec::new(alloc))
    }
}
