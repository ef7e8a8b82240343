use xfs_base::Moment;
use xfs_disk::Disk;
use xfs_guard::Guard;
use xfs_mech::Mechanism;

/// What the dispenser's commands rest on: the guard; for how many milliseconds a nonce lives, 0 for without an end;
/// when the live one was issued; and whether an exchange is open.
#[derive(Drop)]
pub(crate) struct Dispenser<M: Mechanism, D: Disk> {
    pub(crate) guard: Guard<M, D>,
    pub(crate) life: u32,
    pub(crate) issued: Moment,
    pub(crate) exchange: bool,
}
