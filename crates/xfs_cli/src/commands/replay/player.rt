//! What answers the lines of a script of clients.

ghost use Rattle.std.specs.Prelude.{◌≡◌, ◌≤◌};
ghost use Rattle.xfs_base.specs.declared.moment.TheConstants.{LAST_MOMENT};

use crate::commands::replay::clients::Clients;
use std::alloc::Global;
use xfs_base::{Bytes, Moment};
use xfs_disk::Disk;
use xfs_machine::{Machine, Tally};
use xfs_mech::Mechanism;
use xfs_token::TokenKey;

/// A machine, the key of its tokens, the script's clients, the moment of the calls to come, and the token that was
/// minted last.
#[derive(Drop)]
pub struct Player<M: Mechanism, D: Disk> {
    pub alloc: Global,
    pub machine: Machine<M, D>,
    pub key: TokenKey,
    pub clients: Clients,
    pub now: Moment,
    pub last: Option<Bytes>,
    pub tally: Tally,
    ghost keyed: { key ≡ machine.state.seen.guard.key },
    ghost timed: { now.0 ≤ LAST_MOMENT },
}

impl<M: Mechanism, D: Disk> Player<M, D> {
    ghost use Rattle.std.specs.Prelude.{◌≡◌};
    ghost use Rattle.xfs_cli.specs.Replay.States.{begun, played};

    /// Over a machine that was booted: no client is joined, the moment is 0, and no token was minted.
    pub fn new(alloc: Global, machine: Machine<M, D>, key: [u8; 32]) -> Player<M, D>
        requires key { key ≡ machine.state.seen.guard.key }
        ensures machine { result.machine ≡ machine }
        ensures begun { played result ≡ begun machine.state }
    {
        Player {
            alloc,
            machine,
            key: TokenKey::new(key),
            clients: Clients::new(alloc),
            now: Moment(0),
            last: None,
            tally: Tally::new(),
        }
    }
}
