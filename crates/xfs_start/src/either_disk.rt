//! A disk of one of two kinds.

ghost use Rattle.xfs_start.specs.EitherDisks.{faults_of_either, held_of, is_image, moment_of, was_image};
ghost use Rattle.xfs_start.specs.declared.either_disk.EitherDisk.TheVariants as Kind;

use xfs_base::Failed;
use xfs_disk::Disk;

/// A disk over a file, or one in memory: each call is the call of the one it is.
#[derive(Drop)]
pub enum EitherDisk<F: Disk, M: Disk> {
    File(F),
    Memory(M),
}

impl<F: Disk, M: Disk> Disk for EitherDisk<F, M> {
    ghost held = { held_of F.Disk M.Disk };

    ghost images = { is_image F.Disk M.Disk };

    ghost moment = { moment_of F.Disk M.Disk };

    ghost images_since = { was_image F.Disk M.Disk };

    ghost faults = { faults_of_either F.Disk M.Disk };

    ghost as_read = { elim [ Kind.File d ↦ F.as_read d | Kind.Memory d ↦ M.as_read d ] };

    ghost counts_now = { elim [ Kind.File d ↦ F.counts_now d | Kind.Memory d ↦ M.counts_now d ] };

    ghost only_now = { elim [ Kind.File d ↦ F.only_now d | Kind.Memory d ↦ M.only_now d ] };

    fn len(&mut self) -> Result<u64, Failed> {
        match self {
            EitherDisk::File(disk) => disk.len(),
            EitherDisk::Memory(disk) => disk.len(),
        }
    }

    fn read(&mut self, at: u64, into: &mut [u8]) -> Result<usize, Failed> {
        match self {
            EitherDisk::File(disk) => disk.read(at, into),
            EitherDisk::Memory(disk) => disk.read(at, into),
        }
    }

    fn write_at(&mut self, at: u64, bytes: &[u8]) -> Result<(), Failed> {
        match self {
            EitherDisk::File(disk) => disk.write_at(at, bytes),
            EitherDisk::Memory(disk) => disk.write_at(at, bytes),
        }
    }

    fn cut(&mut self, len: u64) -> Result<(), Failed> {
        match self {
            EitherDisk::File(disk) => disk.cut(len),
            EitherDisk::Memory(disk) => disk.cut(len),
        }
    }

    fn sync(&mut self) -> Result<(), Failed> {
        match self {
            EitherDisk::File(disk) => disk.sync(),
            EitherDisk::Memory(disk) => disk.sync(),
        }
    }
}
