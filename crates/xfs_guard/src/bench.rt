use crate::machine_core::Core;
use xfs_disk::Disk;
use xfs_mech::{Mechanism, Watch};

/// What a command works on: the core of its guard or its machine, the news of the card slot and of the key pad, which a
/// server alone takes, and the core of a second machine, which `fleet` alone touches.
#[derive(Drop)]
pub struct Bench<M: Mechanism, D: Disk, P: Watch, Q: Watch> {
    pub core: Core<M, D>,
    pub cards: P,
    pub keys: Q,
    pub second: Core<M, D>,
}
