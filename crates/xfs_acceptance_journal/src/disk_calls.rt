ghost use Rattle.std.specs.Prelude.{◌≡◌, IfOk};
ghost use Rattle.xfs_disk.specs.MemDisk.{bytes_of};

use crate::files::opened;
use std::alloc::Global;
use std::fs;
use std::test::Fail;
use xfs_disk::{Disk, FailDisk, FileDisk, FuseDisk, MemDisk};

fn disk(alloc: Global, bytes: &[u8]) -> Result<MemDisk, Fail>
    ensures { IfOk result (λ d. bytes_of d ≡ bytes.now) }
{
    Ok(MemDisk::new(alloc, bytes.to_vec(alloc)?))
}

#[test]
fn a_crash_loses_or_blots_what_no_sync_kept(rt: HostRuntime) -> Result<(), Fail> {
    let alloc = rt.alloc();
    for (pick, left) in [
        (0, [1, 2, 3].as_slice()),
        (7, [1, 2, 7, 7].as_slice()),
        (256, [1, 2, 0, 0].as_slice()),
    ] {
        let mut file = disk(alloc, &[1, 2, 3])?;
        assert!(rt; file.write_at(2, &[4, 5]).is_ok());
        assert!(rt; file.bytes() == [1, 2, 4, 5].as_slice());
        assert!(rt; file.crash(pick).bytes() == left, "pick {pick}");
    }
    Ok(())
}

// Whether what is behind the fourth byte is cut and synced, and the file made longer again.
fn is_cut<D: Disk>(file: &mut D) -> bool {
    file.cut(4).is_ok() && file.sync().is_ok() && file.cut(6).is_ok()
}

#[test]
fn a_sync_keeps_what_was_written_and_cut(rt: HostRuntime) -> Result<(), Fail> {
    let mut file = disk(rt.alloc(), &[1, 2, 3])?;
    assert!(rt; file.write_at(3, &[4, 5]).is_ok());
    assert!(rt; is_cut(&mut file));
    assert!(rt; file.bytes() == [1, 2, 3, 4, 0, 0].as_slice());
    assert!(rt; file.crash(0).bytes() == [1, 2, 3, 4].as_slice());
    Ok(())
}

// How many bytes a read at each of these places gives. None where one fails.
fn counts_at<D: Disk>(file: &mut D, places: [u64; 4]) -> Option<[usize; 4]> {
    let mut page = [0; 4];
    let [a, b, c, d] = places;
    Some([
        file.read(a, &mut page).ok()?,
        file.read(b, &mut page).ok()?,
        file.read(c, &mut page).ok()?,
        file.read(d, &mut page).ok()?,
    ])
}

#[test]
fn reads_are_counted(rt: HostRuntime) -> Result<(), Fail> {
    let mut file = disk(rt.alloc(), &[1, 2, 3])?;
    let counts = counts_at(&mut file, [0, 2, 3, 99]);
    assert!(rt; counts == Some([3, 1, 0, 0]) && file.len() == Ok(3));
    assert!(rt; file.reads() == 4 && file.widest() == 4);
    Ok(())
}

// Which of three syncs pass, and which of three writes of a byte.
fn syncs<D: Disk>(disk: &mut D) -> [bool; 3] {
    [1, 2, 3].map(|_| disk.sync().is_ok())
}

fn writes<D: Disk>(disk: &mut D) -> [bool; 3] {
    [1, 2, 3].map(|byte| disk.write_at(0, &[byte]).is_ok())
}

#[test]
fn a_call_fails_at_its_place(rt: HostRuntime) -> Result<(), Fail> {
    let failing = Vec::from_slice(rt.alloc(), &[2])?;
    let mut disk = FailDisk::new(disk(rt.alloc(), &[])?, failing);
    assert!(rt; syncs(&mut disk) == [true, false, true]);
    assert!(rt; disk.inner().bytes() == [].as_slice());
    Ok(())
}

#[test]
fn calls_fail_from_a_place_on(rt: HostRuntime) -> Result<(), Fail> {
    let mut disk = FuseDisk::new(disk(rt.alloc(), &[])?, 1);
    assert!(rt; writes(&mut disk) == [true, false, false]);
    assert!(rt; disk.inner().bytes() == [1].as_slice());
    Ok(())
}

#[test]
fn a_file_is_written_cut_synced_and_read(rt: HostRuntime) -> Result<(), Fail> {
    fs::write(&rt, "xfs_disk.test", b"")?;
    let mut disk = FileDisk::new(opened(&rt, "xfs_disk.test")?);
    assert!(rt; disk.write_at(0, &[1, 2, 3, 4]).is_ok());
    assert!(rt; disk.cut(3).is_ok());
    assert!(rt; disk.sync().is_ok());
    let mut page = [0; 8];
    assert!(rt; disk.len() == Ok(3));
    assert!(rt; disk.read(1, &mut page) == Ok(2));
    assert!(rt; page == [2, 3, 0, 0, 0, 0, 0, 0]);
    assert!(rt; disk.read(3, &mut page) == Ok(0));
    fs::remove_file(&rt, "xfs_disk.test")?;
    Ok(())
}

#[test]
fn a_file_that_has_no_sync_fails_it(rt: HostRuntime) -> Result<(), Fail> {
    let mut null = FileDisk::new(opened(&rt, "/dev/null")?);
    assert!(rt; null.write_at(0, &[1]).is_ok());
    for _ in 0..3 {
        assert!(rt; null.sync().is_err());
    }
    Ok(())
}
