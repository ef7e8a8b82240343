use xfs_base::UnitTable;
use xfs_disk::Disk;
use xfs_journal::Limits;
use xfs_mech::Mechanism;

/// What a command's guard or machine works on: the mechanism, the disk of the journal, the key of the
/// tokens' HMAC, the seed of the nonces, the kinds of notes of the units, the journal's limits, and for
/// how many milliseconds a nonce lives in a machine, 0 for without an end. A guard alone has no clock,
/// and takes no notice of that life.
#[derive(Drop)]
pub struct Core<M: Mechanism, D: Disk> {
    pub mech: M,
    pub disk: D,
    pub key: [u8; 32],
    pub seed: [u8; 32],
    pub units: UnitTable,
    pub limits: Limits,
    pub life: u32,
}
