ghost use Rattle.std.specs.Prelude.{◌≡◌, Some};
ghost use Rattle.xfs_server.specs.Memories.{begun_tended};

use crate::{Tended, Work2};
use std::alloc::Global;
use std::marker::Model;
use xfs_base::Memory;
use xfs_mech::Touch;

/// What stands behind a worker, in memory. It keeps the touches made.
#[derive(Drop)]
pub struct MemTended {
    touched: Vec<Touch>,
    wants: bool,
    left: u64,
    faults: u64,
    wanted: u64,
    unwanted: u64,
    stays: u64,
    closing: bool,
    touches: u64,
    turns: u64,
}

impl Model for MemTended {
    ghost use Rattle.std.specs.Prelude.{Some};
    ghost use Rattle.xfs_server.specs.Tendeds.{TendedLog};
    ghost use Rattle.xfs_server.specs.Memories.{TendedInMemory};

    ghost Value = { TendedInMemory };

    ghost view = { λ b. record {
      log = record { touched = Some b.touched.items; faults = Some b.faults; wanted = Some b.wanted; unwanted = Some b.unwanted; stays = Some b.stays; closing = b.closing; touches = b.touches; turns = b.turns };
      wants = b.wants;
      left = b.left;
    } };
}

impl MemTended {
    /// `wants` is what it answers always; `closing` answers false in the first `rounds` calls and true
    /// from then on.
    pub fn new(alloc: Global, wants: bool, rounds: u64) -> MemTended
        ensures { result ≡ begun_tended wants rounds }
    {
        MemTended {
            touched: Vec::new(alloc),
            wants,
            left: rounds,
            faults: 0,
            wanted: 0,
            unwanted: 0,
            stays: 0,
            closing: false,
            touches: 0,
            turns: 0,
        }
    }

    /// The touches made.
    pub fn touches_made(&self) -> &[Touch]
        ensures { self.now.log.touched ≡ Some result.now }
    {
        &self.touched
    }

    /// How often `fault` was called.
    pub fn faults(&self) -> u64
        ensures { self.now.log.faults ≡ Some result }
    {
        self.faults
    }

    /// How often `turn` was called.
    pub fn turns(&self) -> u64
        ensures { result ≡ self.now.log.turns }
    {
        self.turns
    }
}

impl Tended for MemTended {
    ghost use Rattle.std.specs.Prelude.{◌≡◌, ◌-◌, ◌==◌, Ok};
    ghost use Rattle.xfs_server.specs.Tendeds.{after_closing, after_wants, after_touch, after_fault, after_work, CountsFault};
    ghost use Rattle.xfs_server.specs.declared.board.Work2.TheVariants as Work2;

    ghost log = { λ b. b.log };

    fn wants(&mut self) -> bool
        ensures answer { result ≡ self.old.wants }
        ensures made { self.new ≡ record self.old { log = after_wants self.old.log result } }
    {
        if self.wants {
            self.wanted = self.wanted.saturating_add(1);
        } else {
            self.unwanted = self.unwanted.saturating_add(1);
        }
        self.wants
    }

    fn touch(&mut self, touch: Touch) -> Result<(), Memory>
        ensures made { self.new ≡ record self.old { log = after_touch self.old.log touch result } }
    {
        self.touches = self.touches.saturating_add(1);
        self.touched.push(touch)?;
        Ok(())
    }

    fn fault(&mut self) -> Result<(), Memory>
        ensures made { self.new ≡ record self.old { log = after_fault self.old.log 0 } }
        ensures ok { result ≡ Ok tt }
    {
        self.faults = self.faults.saturating_add(1);
        Ok(())
    }

    fn turn(&mut self) -> Result<Work2, Memory>
        ensures made { self.new ≡ record self.old { log = after_work self.old.log } }
        ensures idle { result ≡ Ok Work2.Idle }
    {
        self.turns = self.turns.saturating_add(1);
        Ok(Work2::Idle)
    }

    fn closing(&mut self) -> bool
        ensures answer { result ≡ (self.old.left == 0) }
        ensures made { self.new ≡ record self.old { log = after_closing self.old.log result; left = self.old.left - 1 } }
    {
        if self.left == 0 {
            self.closing = true;
            return true;
        }
        self.left -= 1;
        self.stays = self.stays.saturating_add(1);
        false
    }
}
