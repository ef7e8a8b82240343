use crate::side::Side;
use xfs_disk::Disk;
use xfs_guard::BootFault;
use xfs_mech::Mechanism;

/// The mechanism and the disk of a machine that ended, or that there is none of.
#[derive(Drop)]
pub struct Pair<M: Mechanism, D: Disk> {
    pub mech: M,
    pub disk: D,
}

/// The machine of a side was refused its boot or its restart. No machine is left, and all that they worked on comes
/// back.
#[derive(Drop)]
pub struct FleetFail<M: Mechanism, D: Disk> {
    pub side: Side,
    pub why: BootFault,
    pub a: Pair<M, D>,
    pub b: Pair<M, D>,
}
