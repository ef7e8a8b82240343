//! How a machine ends, or begins anew.

ghost use Rattle.std.specs.Prelude.{◌≡◌, ◌≢◌, false, List, None, IfOk, IfErr, OnOk, OnErr, Err, length, is_ok, is_some};
ghost use Rattle.xfs_dispenser.specs.Seen.{seen};
ghost use Rattle.xfs_guard.specs.Keeps.{Keeps, NoEntry};
ghost use Rattle.xfs_guard.specs.Stored.{EachLeft};
ghost use Rattle.xfs_journal.specs.JournalView.{IsPossible};
ghost use Rattle.xfs_base.specs.Causes.{Rose};
ghost use Rattle.xfs_guard.specs.declared.fail.BootFault.TheVariants.{Disk as BootDisk, Memory as BootMemory};
ghost use Rattle.xfs_machine.specs.Endings.{Finishes, IsEmptied, IsFinishedThrough, IsHandedBack, IsLeftRecorded, HandsBackRefused, IsRefusedThrough, IsUnrestarted, RefusesAs};
ghost use Rattle.xfs_machine.specs.Laws.{IsLawful};
ghost use Rattle.xfs_machine.specs.MachineView.{guard_of};
ghost use Rattle.xfs_model.specs.Events.{restart, restarted, end_, ended, memory};
ghost use Rattle.xfs_model.specs.State.{State};
ghost use Rattle.xfs_model.specs.Step.{Step, gone};

use crate::boot::newest;
use crate::dispenser::Dispenser;
use crate::machine::Machine;
use crate::reboot::{close, reboot};
use xfs_base::Moment;
use xfs_disk::Disk;
use xfs_guard::{BootFail, BootFault, Deny, Guard};
use xfs_mech::Mechanism;
use xfs_traffic::{Devices, Traffic};

impl<M: Mechanism, D: Disk> Machine<M, D> {
    /// Boots again in place, on the same mechanism and disk: every connection, command, card, entry and
    /// exchange is gone. So they are after a refusal, but for `Memory`, which leaves all as it was. The limit of records
    /// counts anew from the boot record, which has room where a boot's would have it.
    pub fn reboot(&mut self) -> Result<(), BootFault>
        ensures ok { OnOk result (Step self.old.state restart restarted self.new.state) }
        ensures laws { OnOk result (IsLawful self.old.state restart restarted self.new.state) }
        ensures refused { IfErr result (λ f. f ≢ BootMemory → IsUnrestarted self.old.state self.new.state.seen) }
        ensures emptied { IfErr result (λ f. f ≢ BootMemory → IsEmptied self.old.state self.new.state) }
        ensures memory { result ≡ Err BootMemory → Step self.old.state restart memory self.new.state }
        ensures cause { IfErr result (λ f. RefusesAs f self.old.state.seen self.new.state.seen) }
        ensures disk { result ≡ Err BootDisk → Rose (D.faults self.old.disk) (D.faults self.new.disk) }
        ensures keeps { Keeps D.Disk NoEntry (guard_of self.old) (guard_of self.new) }
    {
        let outcome = reboot(&mut self.dispenser.guard);
        if outcome == Err(BootFault::Memory) {
            return outcome;
        }
        self.boot = boot_after(&self.dispenser.guard, &outcome, self.boot);
        // Nothing of before the boot is left: no card, entry, exchange, connection or command.
        self.dispenser.issued = Moment(0);
        self.dispenser.exchange = false;
        self.moment = Moment(0);
        self.given = 0;
        self.devices = Devices::new();
        self.traffic = Traffic::new(self.alloc);
        outcome
    }

    /// Boots again, as `reboot` does, and where it is refused, hands mechanism and disk back.
    pub fn restart(mut self) -> Result<Machine<M, D>, BootFail<M, D>>
        ensures step { IfOk result (λ m. Step self.state restart restarted m.state) }
        ensures laws { IfOk result (λ m. IsLawful self.state restart restarted m.state) }
        ensures refused { IfErr result (λ f. HandsBackRefused M.Mechanism D.Disk self.state f.why f.mech f.disk) }
        ensures keeps { IfOk result (λ m. Keeps D.Disk NoEntry (guard_of self) (guard_of m)) }
        ensures through { IfErr result (λ f. IsRefusedThrough D.Disk (guard_of self) f.disk) }
        ensures left { IfErr result (λ f. IsLeftRecorded D.Disk f.disk self.state.seen.guard (M.motions f.mech)) }
    {
        match self.reboot() {
            Ok(()) => Ok(self),
            Err(why) => {
                let (mech, disk) = self.end();
                Err(BootFail { why, mech, disk })
            }
        }
    }

    /// The mechanism and the disk, as they are. An open order stays in the journal and is never carried out. It
    /// takes no memory.
    pub fn end(self) -> (M, D)
        ensures step { Step self.state end_ ended (gone self.state self.state.seen) }
        ensures back { IsHandedBack M.Mechanism D.Disk self.state.seen result.0 result.1 }
        ensures left { EachLeft D.Disk result.1 (IsPossible self.state.seen.guard.records self.state.seen.guard.in_doubt) }
        ensures recorded { IsLeftRecorded D.Disk result.1 self.state.seen.guard self.state.seen.guard.motions }
        ensures clean { self.state.seen.guard.shut ≡ false → self.state.seen.guard.in_doubt ≡ None }
        ensures disk { result.1 ≡ self.disk }
    {
        self.into_guard().end()
    }

    /// Carries an open order out, where that isn't done yet, and settles it, and then hands mechanism and disk
    /// back. Its one refusal is `Disk`: the disk failed at the settling. It takes no memory.
    pub fn finish(self) -> (Result<(), Deny>, M, D)
        ensures step { Finishes M.Mechanism D.Disk self.state result.0 result.1 result.2 }
        ensures tied { self.state.seen.disk_faults ≡ D.faults self.disk }
        ensures err { IfErr result.0 (λ e. e ≡ Deny.Disk) }
        ensures through { IsFinishedThrough M.Mechanism D.Disk (guard_of self) result.1 result.2 }
        ensures recorded { IsLeftRecorded D.Disk result.2 self.state.seen.guard (M.motions result.1) }
    {
        let mut guard = self.into_guard();
        let settled = close(&mut guard);
        let (mech, disk) = guard.end();
        (settled, mech, disk)
    }

    fn into_guard(self) -> Guard<M, D>
        ensures guard { result ≡ guard_of self }
        ensures seen { seen D.Disk result ≡ self.state.seen }
        ensures there { self.state.boot ≢ 0 }
    {
        let Machine { dispenser, .. } = self;
        let Dispenser { guard, .. } = dispenser;
        guard
    }
}

// The number of the boot's boot record, where there is a new one.
fn boot_after<M: Mechanism, D: Disk>(
    guard: &Guard<M, D>,
    outcome: &Result<(), BootFault>,
    boot: u64,
) -> u64
    ensures ok { OnOk outcome.now (result ≡ length guard.now.state.records) }
    ensures err { OnErr outcome.now (result ≡ boot) }
{
    match outcome {
        Ok(()) => newest(guard),
        Err(_) => boot,
    }
}
