//! The guard's boot over files, which tell nothing, and its restore.

ghost use Rattle.std.specs.Prelude.{◌≡◌, IfOk};
ghost use Rattle.xfs_guard.specs.declared.open.Open.TheVariants.{No};

use crate::files::opened;
use crate::guard_bench::{GENUINE, guard_on, sim, units};
use std::alloc::Global;
use std::fs::{self, File};
use std::test::Fail;
use xfs_acceptance_journal::short_files::old_file;
use xfs_base::Counts;
use xfs_disk::{Disk, FileDisk};
use xfs_guard::{Ask, BootFault, Deny, Guard};
use xfs_journal::Rec;
use xfs_mech::{Mechanism, SimMech};
use xfs_simulated::{KEY, LIMITS, SEED, places};

// How many records stand in front of those in memory, and how many are there. None where a nonce lives.
fn counts_of<M: Mechanism, D: Disk>(guard: &Guard<M, D>) -> Option<(u64, usize)> {
    match guard.live() {
        Some(_) => None,
        None => Some((guard.base(), guard.records().len())),
    }
}

// How a boot over a file ends: with so many records in front of those in memory, so many there and no live nonce; or
// refused.
fn booted_over(alloc: Global, file: File) -> Result<Result<Option<(u64, usize)>, BootFault>, Fail> {
    let units = units()?;
    let mech = sim(alloc, &units)?;
    let disk = FileDisk::new(file);
    match Guard::boot(alloc, mech, disk, KEY, SEED, units, LIMITS) {
        Ok(guard) => Ok(Ok(counts_of(&guard))),
        Err(fail) => Ok(Err(fail.why)),
    }
}

// The file of a guard that issued a nonce.
fn whole_file(alloc: Global) -> Result<Vec<u8>, Fail> {
    let mut guard = guard_on(alloc, &[])?;
    guard.issue()?;
    let (mech, disk) = guard.end();
    drop(mech);
    Ok(disk.inner().bytes().to_vec(alloc)?)
}

// Whether a boot over these bytes ends so, and leaves a refused file as it was.
fn boots(
    rt: &HostRuntime,
    bytes: &[u8],
    due: Result<Option<(u64, usize)>, BootFault>,
) -> Result<bool, Fail> {
    fs::write(rt, "xfs_acceptance_boot.test", bytes)?;
    let file = opened(rt, "xfs_acceptance_boot.test")?;
    let told = booted_over(rt.alloc(), file)?;
    let left = fs::read(rt, "xfs_acceptance_boot.test")?;
    let is_same = left.as_slice() == bytes;
    Ok(told == due && is_same == told.is_err())
}

// The same of the first bytes.
fn boots_front(
    rt: &HostRuntime,
    bytes: &[u8],
    len: usize,
    due: Result<Option<(u64, usize)>, BootFault>,
) -> Result<bool, Fail> {
    boots(rt, bytes.get(..len).ok_or("shorter")?, due)
}

// The file of a Start and an Issue has 233 bytes, of which the last is the closed gate. The Issue stands
// behind 212.
#[test]
fn a_boot_over_a_file_finds_a_journal_or_none(rt: HostRuntime) -> Result<(), Fail> {
    let whole = whole_file(rt.alloc())?;
    let cut = Err(BootFault::NotJournal { at: 232 });
    let shorter = Err(BootFault::NotJournal { at: 212 });
    let other = Err(BootFault::NotJournal { at: 0 });
    assert!(rt; boots(&rt, &[], Ok(Some((0, 1))))? && boots(&rt, &whole, Ok(Some((2, 1))))?);
    assert!(rt; boots(&rt, &[0xff; 9], Ok(Some((0, 1))))? && boots(&rt, &[0xff; 10], other)?);
    assert!(rt; boots_front(&rt, &whole, 232, cut)? && boots_front(&rt, &whole, 231, shorter)?);
    fs::remove_file(&rt, "xfs_acceptance_boot.test")?;
    Ok(())
}

// The older file with the second nonce's Issue behind the first.
fn with_two_nonces(alloc: Global) -> Result<Vec<u8>, Fail> {
    let mut bytes = old_file(alloc)?;
    bytes.pop();
    bytes.extend_from_slice(b"\x01\0\x11I\0\0\0\0\0\0\0\x02\xB8\x19\xD2\xBD\x1A\xED\x8D\xA0\0")?;
    Ok(bytes)
}

// A guard over the file of this path, by a mechanism that nobody used.
fn booted_on(rt: &HostRuntime, path: &str) -> Result<Guard<SimMech, FileDisk>, Fail>
    ensures { IfOk result (λ g. g.state.open_order ≡ No) }
{
    let units = units()?;
    let mech = sim(rt.alloc(), &units)?;
    let disk = FileDisk::new(opened(rt, path)?);
    match Guard::boot(rt.alloc(), mech, disk, KEY, SEED, units, LIMITS) {
        Ok(guard) => Ok(guard),
        Err(fail) => Err(fail.why.into()),
    }
}

// Whether an older file of a Boot and so many nonces, which memory lets go, gets a Start that counts them and then the
// next nonce.
fn carries_over(rt: &HostRuntime, older: &[u8], issues: u8) -> Result<bool, Fail> {
    fs::write(rt, "xfs_acceptance_older.test", older)?;
    let mut guard = booted_on(rt, "xfs_acceptance_older.test")?;
    Ok(is_carried(rt, older, issues)? && issues_next(&mut guard, issues.into())?)
}

fn is_carried(rt: &HostRuntime, older: &[u8], issues: u8) -> Result<bool, Fail> {
    let file = fs::read(rt, "xfs_acceptance_older.test")?;
    fs::remove_file(rt, "xfs_acceptance_older.test")?;
    Ok(has_start(&file, older, issues))
}

// Whether the nonce behind so many is issued, and memory has it and the Start in front of it alone.
fn issues_next<M: Mechanism, D: Disk>(guard: &mut Guard<M, D>, issues: u64) -> Result<bool, Deny>
    requires none { guard.old.state.open_order ≡ No }
{
    let next = issues.saturating_add(1);
    let is_next = guard.base() == next && guard.issue()?.number == next;
    Ok(is_next && goes_on_behind(guard.records(), issues))
}

// The file is of version 2, and has such a Start in place of the closed gate at the end of the older one.
fn has_start(file: &[u8], older: &[u8], issues: u8) -> bool {
    let gate = older.len().saturating_sub(1);
    let head = [1, 0, 0xC9, 0x4B, 0, 0, 0, 0, 0, 0, 0, issues, 0];
    let Some(start) = file.get(gate..) else {
        return false;
    };
    file.starts_with(b"XFSJRNL2") && start.len() == 205 && start.starts_with(&head)
}

// A Start that counts so many nonces, and the next nonce's Issue.
fn goes_on_behind(records: &[Rec], before: u64) -> bool {
    matches!(
        records,
        [Rec::Start { issues, .. }, Rec::Issue { number, .. }]
            if *issues == before && *number == before.saturating_add(1)
    )
}

#[test]
fn an_older_file_is_carried_over_by_a_boot(rt: HostRuntime) -> Result<(), Fail> {
    let one = carries_over(&rt, old_file(rt.alloc())?.as_slice(), 1)?;
    let two = carries_over(&rt, with_two_nonces(rt.alloc())?.as_slice(), 2)?;
    assert!(rt; one && two);
    Ok(())
}

// Whether nothing was ordered and nothing lies in the way of an append.
fn is_idle<M: Mechanism, D: Disk>(guard: &Guard<M, D>) -> bool {
    guard.unacted().is_none() && guard.unfit().is_none() && guard.units().len() == 4
}

// Whether the first nonce is issued, and lives as it was answered.
fn issues_the_first<M: Mechanism, D: Disk>(guard: &mut Guard<M, D>) -> Result<bool, Deny>
    requires none { guard.old.state.open_order ≡ No }
{
    let nonce = guard.issue()?;
    Ok(match guard.live() {
        Some(live) => nonce.number == 1 && live.number == 1 && live.text == nonce.text,
        None => false,
    })
}

// Whether the last record is a Start behind one nonce, with the notes of a machine that nobody used.
fn ends_with_a_start(records: &[Rec]) -> bool {
    match records.last() {
        Some(
            Rec::Start {
                issues: 1,
                places: surveyed,
            },
        ) => *surveyed.places() == places(),
        _ => false,
    }
}

#[test]
fn a_restore_gives_the_journal_a_start_with_the_places(rt: HostRuntime) -> Result<(), Fail> {
    let mut guard = guard_on(rt.alloc(), &[])?;
    assert!(rt; is_idle(&guard) && issues_the_first(&mut guard)?);
    assert!(rt; guard.restore() == Ok(()) && ends_with_a_start(guard.records()));
    Ok(())
}

// Whether a note is ordered to be stacked on the token, which is not carried out.
fn orders_a_note<M: Mechanism, D: Disk>(guard: &mut Guard<M, D>) -> Result<bool, Deny>
    requires none { guard.old.state.open_order ≡ No }
{
    let issue = guard.issue()?.number;
    let claim = guard.check(GENUINE.as_bytes())?;
    let _permit = guard.allow(claim, &Counts([1, 0, 0, 0, 0, 0, 0, 0]))?;
    if guard.units().len() < 1 {
        return Ok(false);
    }
    guard.order(Ask::Stack {
        issue,
        unit: 1,
        count: 1,
    })?;
    Ok(guard.ordering())
}

#[test]
fn an_order_that_was_open_is_never_carried_out(rt: HostRuntime) -> Result<(), Fail> {
    let mut guard = guard_on(rt.alloc(), &[])?;
    assert!(rt; orders_a_note(&mut guard)? && guard.restore() == Ok(()));
    assert!(rt; !guard.ordering() && guard.places() == places());
    assert!(rt; guard.records().len() == 5);
    Ok(())
}
