ghost use Rattle.std.specs.Prelude.{◌≡◌};
ghost use Rattle.std.specs.Option.{ForSome};
ghost use Rattle.xfs_server.specs.Links.{IsFresh};
ghost use Rattle.xfs_server.specs.Memories.{begun_doors};

use crate::{DialFault, Door, Doors, MemLink};
use std::marker::Model;
use std::vec::IntoIter;
use xfs_base::Service;

/// Doors in memory: the connections to come, the one that is dialled, and the places, from 1, of the
/// calls that fail.
#[derive(Drop)]
pub struct MemDoors {
    coming: IntoIter<(Service, MemLink)>,
    dialled: Option<MemLink>,
    failing: Vec<u64>,
    calls: u64,
    came: u64,
    dials: u64,
    last_dialled: Option<Service>,
    quiets: u64,
    faults: u64,
}

impl Model for MemDoors {
    ghost use Rattle.std.specs.Prelude.{IfSome};
    ghost use Rattle.std.specs.Vec.Iter.{into_iter_items};
    ghost use Rattle.xfs_server.specs.Doors.{DoorLog};
    ghost use Rattle.xfs_server.specs.Links.{IsFresh};
    ghost use Rattle.xfs_server.specs.Memories.{DoorsInMemory};

    ghost Value = { DoorsInMemory };

    ghost view = { λ d. record {
      log = record { came = d.came; dials = d.dials; last_dialled = d.last_dialled; quiets = d.quiets; faults = d.faults };
      coming = into_iter_items d.coming;
      dialled = d.dialled;
      failing = d.failing.items;
      calls = d.calls;
    } };

    ghost invariant = { λ d. IfSome d.dialled (λ link. IsFresh link.log) };
}

impl MemDoors {
    /// Doors with these connections to come. `dialled` is handed over by the first `dial` that doesn't
    /// fail; nothing was taken of it yet, which its `is_fresh` tells. The calls of `next` and `dial` are
    /// counted together.
    pub fn new(
        coming: Vec<(Service, MemLink)>,
        dialled: Option<MemLink>,
        failing: Vec<u64>,
    ) -> MemDoors
        requires { ForSome dialled (λ link. IsFresh link.log) }
        ensures { result ≡ begun_doors coming.items dialled failing.items }
    {
        MemDoors {
            coming: coming.into_iter(),
            dialled,
            failing,
            calls: 0,
            came: 0,
            dials: 0,
            last_dialled: None,
            quiets: 0,
            faults: 0,
        }
    }
}

impl Doors for MemDoors {
    ghost use Rattle.std.specs.Prelude.{◌≡◌, ◌↔◌, Contains, IfOk, Ok, Err};
    ghost use Rattle.xfs_base.specs.Causes.{next_count};
    ghost use Rattle.xfs_server.specs.Doors.{after_next, after_dial};
    ghost use Rattle.xfs_server.specs.Links.{IsFresh};
    ghost use Rattle.xfs_server.specs.Memories.{HandsOver, left_after, Dials, undialled};
    ghost use Rattle.xfs_server.specs.declared.doors.Door.TheVariants as Door;

    type Link = MemLink;

    ghost log = { λ d. d.log };

    fn next(&mut self) -> Door<MemLink>
        ensures log { self.new.log ≡ after_next self.old.log result }
        ensures answer { HandsOver self.old.coming result }
        ensures failing { (result ≡ Door.Failed) ↔ Contains self.old.failing (next_count self.old.calls) }
        ensures same { self.new ≡ record self.old { log = self.new.log; coming = left_after self.old.coming result; calls = next_count self.old.calls } }
    {
        self.calls = self.calls.saturating_add(1);
        if self.failing.contains(&self.calls) {
            self.faults = self.faults.saturating_add(1);
            return Door::Failed;
        }
        match self.coming.next() {
            Some((service, link)) => {
                self.came = self.came.saturating_add(1);
                Door::Came(service, link)
            }
            None => {
                self.quiets = self.quiets.saturating_add(1);
                Door::Quiet
            }
        }
    }

    fn dial(&mut self, service: Service) -> Result<MemLink, DialFault>
        ensures log { self.new.log ≡ after_dial self.old.log service result }
        ensures fresh { IfOk result (λ link. IsFresh link.log) }
        ensures failing { Contains self.old.failing (next_count self.old.calls) → result ≡ Err DialFault.Failed }
        ensures answer { (Contains self.old.failing (next_count self.old.calls) → ⊥) → Dials self.old.dialled result }
        ensures same { self.new ≡ record self.old { log = self.new.log; dialled = undialled self.old.dialled result; calls = next_count self.old.calls } }
    {
        self.calls = self.calls.saturating_add(1);
        self.dials = self.dials.saturating_add(1);
        self.last_dialled = Some(service);
        if self.failing.contains(&self.calls) {
            self.faults = self.faults.saturating_add(1);
            return Err(DialFault::Failed);
        }
        match self.dialled.take() {
            Some(link) => Ok(link),
            None => {
                self.faults = self.faults.saturating_add(1);
                Err(DialFault::Failed)
            }
        }
    }
}
