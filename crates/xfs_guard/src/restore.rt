//! Reading the journal again: after the disk failed, and where the machine starts anew.

ghost use Rattle.std.specs.Prelude.{◌≡◌, ◌+◌, true, false, length, OnOk};
ghost use Rattle.xfs_guard.specs.Booting.{HadRoom, HadRoomAgain, IsRereadBooted};
ghost use Rattle.xfs_guard.specs.Keeps.{Keeps, NoEntry};
ghost use Rattle.xfs_guard.specs.Outcomes.{RefusesRestore};
ghost use Rattle.xfs_guard.specs.Reach.{BeginsBehind};

use crate::{BootFault, Guard, Open};
use xfs_disk::Disk;
use xfs_journal::Survey;
use xfs_mech::Mechanism;

impl<M: Mechanism, D: Disk> Guard<M, D> {
    /// Reads the journal again, which then gets a boot record with the mechanism's places: no nonce lives after it. The list
    /// that is read is the kept one, or that one with the record in doubt. After `Memory` the guard is as before, its open
    /// order too; after every other answer none is open, and the Order stays in the journal and is never carried out.
    /// After `Disk` and `NotJournal` the journal is shut. After `Full` it is open and its boot record is missing: no nonce
    /// lives, and nothing is written, until a later restore appends one. A disk that tells its bytes is never refused
    /// as `NotJournal`.
    pub fn restore(&mut self) -> Result<(), BootFault>
        ensures ok { OnOk result (IsRereadBooted false self.old.state self.new.state) }
        ensures fits { OnOk result (HadRoomAgain false (D.held self.old.disk) self.old.state self.new.state.records) }
        ensures refuses { RefusesRestore D.Disk false result self.old self.new }
        ensures keeps { Keeps D.Disk NoEntry self.old self.new }
    {
        self.read_again(false)
    }

    /// Starts anew: a restore that lets go of the records in front of the last boot record that it read, and once its own
    /// is written of all but that one. So it has room where a boot would have, also where the records in memory are as many
    /// as their limit allows. After `Full`, and after a `Disk` that came behind the reading, memory has the records from
    /// the last boot record on; for the rest each answer tells what a restore's does.
    pub fn reboot(&mut self) -> Result<(), BootFault>
        ensures ok { OnOk result (IsRereadBooted true self.old.state self.new.state) }
        ensures alone { OnOk result (self.new.state.base + 1 ≡ length self.new.state.records) }
        ensures behind { OnOk result (BeginsBehind self.new.state) }
        ensures fits { OnOk result (HadRoom (D.held self.old.disk) self.old.state.limits self.old.state.places self.new.state.records) }
        ensures refuses { RefusesRestore D.Disk true result self.old self.new }
        ensures keeps { Keeps D.Disk NoEntry self.old self.new }
    {
        self.read_again(true)
    }

    // A restore, and a reboot where it rebases.
    fn read_again(&mut self, rebases: bool) -> Result<(), BootFault>
        ensures ok { OnOk result (IsRereadBooted rebases self.old.state self.new.state) }
        ensures fits { OnOk result (HadRoomAgain rebases (D.held self.old.disk) self.old.state self.new.state.records) }
        ensures refuses { RefusesRestore D.Disk rebases result self.old self.new }
        ensures keeps { Keeps D.Disk NoEntry self.old self.new }
    {
        let places = self.mech.survey();
        // The memory of the boot record is had before the journal is read.
        let Ok(survey) = Survey::new(self.alloc, places) else {
            return Err(BootFault::Memory);
        };
        let read = self.ledger.restore(survey, rebases);
        if read == Err(BootFault::Memory) {
            return read;
        }
        self.open_order = Open::No;
        read
    }
}
