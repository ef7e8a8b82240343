ghost use Rattle.std.specs.Prelude.{◌≡◌};

use std::marker::Model;
use xfs_base::{ClientId, Service};

/// What a connection is told by: its client, its service, and the number of the boot record of the boot in
/// which it joined.
#[derive(Drop)]
pub struct Pass {
    pub(crate) client: ClientId,
    pub(crate) service: Service,
    pub(crate) boot: u64,
}

impl Model for Pass {
    ghost use Rattle.xfs_model.specs.State.{Pass as PassView};

    ghost Value = { PassView };

    ghost view = { λ p. record { client = p.client; service = p.service; boot = p.boot } };
}

impl Pass {
    pub fn client(&self) -> ClientId
        ensures { result ≡ self.now.client }
    {
        self.client
    }

    pub fn service(&self) -> Service
        ensures { result ≡ self.now.service }
    {
        self.service
    }
}

/// Why a connection was not taken.
#[derive(Clone, Copy, Debug)]
pub enum JoinFault {
    /// 64 connections are open, or all client numbers were given.
    Full,
    Memory,
}
