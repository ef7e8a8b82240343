//! The journal of a disk, once its file is of the version that starts write.

ghost use Rattle.std.specs.Prelude.{IfErr, IfOk};
ghost use Rattle.xfs_guard.specs.LedgerBooting.{MountsJournal, RefusesMount};

use crate::BootFault;
use crate::ledger::RefusedLedger;
use std::alloc::Global;
use xfs_disk::Disk;
use xfs_journal::{Journal, Limits, MountFail};

// Mounts a disk's journal, and carries a file of version 1 over.
pub(crate) fn mount<D: Disk>(
    alloc: Global,
    disk: D,
    limits: Limits,
) -> Result<Journal<D>, RefusedLedger<D>>
    ensures ok { IfOk result (MountsJournal D.Disk limits disk) }
    ensures err { IfErr result (λ f. RefusesMount D.Disk disk f.why f.disk) }
{
    let mut journal = match Journal::mount(alloc, disk, limits) {
        Ok(journal) => journal,
        Err(MountFail { why, disk }) => {
            return Err(RefusedLedger {
                why: BootFault::from(why),
                disk,
            });
        }
    };
    match journal.migrate() {
        Ok(()) => Ok(journal),
        Err(_) => Err(RefusedLedger {
            why: BootFault::Disk,
            disk: journal.end(),
        }),
    }
}
