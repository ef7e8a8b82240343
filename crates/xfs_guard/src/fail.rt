ghost use Rattle.std.specs.Prelude.{◌≡◌};

use xfs_disk::Disk;
use xfs_journal::MountFault;
use xfs_mech::Mechanism;

/// Why a boot or a restore is refused.
#[derive(Clone, Copy, Debug, PartialEq, Eq)]
pub enum BootFault {
    /// The disk's bytes are no journal; `at` is the place of the first fault. A restore is refused so where they
    /// stand for another list than the possible ones.
    NotJournal { at: u64 },
    /// The disk failed in this call: its count of faults rose.
    Disk,
    /// The boot record exceeds a limit of the journal.
    Full,
    Memory,
}

impl From<MountFault> for BootFault {
    ghost use Rattle.xfs_guard.specs.BootFaults.{fault_of};

    ghost from_gives = { λ fault e. e ≡ fault_of fault };

    fn from(fault: MountFault) -> Self {
        match fault {
            MountFault::NotJournal { at } => BootFault::NotJournal { at },
            MountFault::Disk => BootFault::Disk,
            MountFault::Memory => BootFault::Memory,
        }
    }
}

/// A refused boot, with the mechanism as it was handed in, and the disk.
#[derive(Drop)]
pub struct BootFail<M: Mechanism, D: Disk> {
    pub why: BootFault,
    pub mech: M,
    pub disk: D,
}
