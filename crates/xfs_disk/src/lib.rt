//! A disk that may crash at any moment: what it promises, in memory with faults and crashes, and over a file.
#![tactic(auto)]

mod disk;
mod faulty;
mod file;
mod memory;
mod step;

pub use disk::Disk;
pub use faulty::{FailDisk, FaultRule, FaultyDisk, FuseDisk};
pub use file::FileDisk;
pub use memory::MemDisk;
