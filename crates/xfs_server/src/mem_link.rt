ghost use Rattle.std.specs.Prelude.{◌≡◌, ◌↔◌, IsTrue, Contains, Some, IfOk, Err};
ghost use Rattle.xfs_base.specs.Causes.{next_count};
ghost use Rattle.xfs_server.specs.Links.{after_take, after_give, IsFresh};
ghost use Rattle.xfs_server.specs.Memories.{begun_link, begun_plan, Takes};

use crate::{GiveFault, Link, Taking};
use std::alloc::Global;
use std::marker::Model;
use xfs_base::{Bytes, Memory};

/// A connection in memory: the texts to come, and the places, from 1, of the calls that fail.
#[derive(Drop)]
pub struct MemLink {
    alloc: Global,
    texts: Vec<Bytes>,
    at: usize,
    sent: Vec<Bytes>,
    closes: bool,
    failing_takes: Vec<u64>,
    failing_gives: Vec<u64>,
    takes: u64,
    gives: u64,
    closed: bool,
    quiets: u64,
    faults: u64,
}

impl Model for MemLink {
    ghost use Rattle.std.specs.Prelude.{◌≤◌, Some, take, drop, length};
    ghost use Rattle.xfs_server.specs.Links.{LinkLog};
    ghost use Rattle.xfs_server.specs.Memories.{LinkInMemory, LinkPlan};

    ghost Value = { LinkInMemory };

    ghost view = { λ l. record {
      log = record { coming = Some (drop l.at l.texts.items); taken = Some (take l.at l.texts.items); sent = Some l.sent.items; closed = l.closed; quiets = l.quiets; faults = l.faults };
      plan = record { closes = l.closes; failing_takes = l.failing_takes.items; failing_gives = l.failing_gives.items; takes = l.takes; gives = l.gives };
    } };

    ghost invariant = { λ l. l.at ≤ length l.texts.items };
}

impl MemLink {
    /// A link to which these texts are to come. Where none is left, `take` answers Closed where
    /// `closed` is true, else Quiet. A text is copied as it is taken or given.
    pub fn new(
        alloc: Global,
        texts: Vec<Bytes>,
        closed: bool,
        failing_takes: Vec<u64>,
        failing_gives: Vec<u64>,
    ) -> MemLink
        ensures log { result.log ≡ begun_link texts.items }
        ensures plan { result.plan ≡ begun_plan closed failing_takes.items failing_gives.items }
    {
        MemLink {
            alloc,
            texts,
            at: 0,
            sent: Vec::new(alloc),
            closes: closed,
            failing_takes,
            failing_gives,
            takes: 0,
            gives: 0,
            closed: false,
            quiets: 0,
            faults: 0,
        }
    }

    /// What it has sent.
    pub fn sent(&self) -> &[Bytes]
        ensures { self.now.log.sent ≡ Some result.now }
    {
        &self.sent
    }

    /// Whether nothing was taken, sent or counted yet.
    pub fn is_fresh(&self) -> bool
        ensures fresh { IsTrue result → IsFresh self.now.log }
        ensures used { IsFresh self.now.log → IsTrue result }
    {
        self.at == 0 && self.sent.is_empty() && !self.closed && self.quiets == 0 && self.faults == 0
    }
}

impl Link for MemLink {
    ghost use Rattle.std.specs.Prelude.{◌≡◌, ◌↔◌, Contains};
    ghost use Rattle.xfs_base.specs.Causes.{IfTold, next_count};
    ghost use Rattle.xfs_server.specs.Links.{after_take, after_give, IsNextOf};
    ghost use Rattle.xfs_server.specs.Memories.{Takes};
    ghost use Rattle.xfs_server.specs.declared.link.Taking.TheVariants as Taking;
    ghost use Rattle.xfs_server.specs.declared.link.GiveFault.TheVariants as GiveFault;

    ghost log = { λ l. l.log };

    fn take(&mut self) -> Taking
        ensures log { self.new.log ≡ after_take self.old.log result }
        ensures next { IfTold self.old.log.coming (λ texts. IsNextOf texts result) }
        ensures answer { IfTold self.old.log.coming (λ texts. Takes texts self.old.plan.closes result) }
        ensures failing { (result ≡ Taking.Failed) ↔ Contains self.old.plan.failing_takes (next_count self.old.plan.takes) }
        ensures plan { self.new.plan ≡ record self.old.plan { takes = next_count self.old.plan.takes } }
    {
        self.takes = self.takes.saturating_add(1);
        if self.failing_takes.contains(&self.takes) {
            self.faults = self.faults.saturating_add(1);
            return Taking::Failed;
        }
        let Some(text) = self.texts.get(self.at) else {
            if self.closes {
                self.closed = true;
                return Taking::Closed;
            }
            self.quiets = self.quiets.saturating_add(1);
            return Taking::Quiet;
        };
        let Ok(text) = copy_of(self.alloc, text) else {
            return Taking::Memory;
        };
        self.at += 1;
        Taking::Text(text)
    }

    fn give(&mut self, text: &[u8]) -> Result<(), GiveFault>
        ensures log { self.new.log ≡ after_give self.old.log text.now result }
        ensures failing { (result ≡ Err GiveFault.Failed) ↔ Contains self.old.plan.failing_gives (next_count self.old.plan.gives) }
        ensures plan { self.new.plan ≡ record self.old.plan { gives = next_count self.old.plan.gives } }
    {
        self.gives = self.gives.saturating_add(1);
        if self.failing_gives.contains(&self.gives) {
            self.faults = self.faults.saturating_add(1);
            return Err(GiveFault::Failed);
        }
        let Ok(text) = Vec::from_slice(self.alloc, text) else {
            return Err(GiveFault::Memory);
        };
        if self.sent.push(Bytes::new(text)).is_err() {
            return Err(GiveFault::Memory);
        }
        Ok(())
    }
}

/// The bytes once more.
pub(crate) fn copy_of(alloc: Global, bytes: &Bytes) -> Result<Bytes, Memory>
    ensures { IfOk result (λ copy. copy ≡ bytes.now) }
{
    Ok(Bytes::new(Vec::from_slice(alloc, bytes.list())?))
}
