//! Reading what stands at a gate byte: a record behind it, or the end of the list.
ghost use Rattle.std.specs.Prelude.{◌≡◌, ◌+◌, ◌<◌, ◌≤◌, ◌^◌, true, false, None, ◌∷◌, length, drop, slice_index, Err, IfOk, IfErr, OnOk, IfSome};
ghost use Rattle.xfs_base.specs.Causes.{IfTold};
ghost use Rattle.xfs_journal.specs.declared.buffer.TheConstants.{MOST};
ghost use Rattle.xfs_journal.specs.Image.{IsRecord, framed};
ghost use Rattle.xfs_journal.specs.Paging.{Shows, Since, OnlyReads, IsShut, BreaksAt, EndsAt, Passes, AreSizeBytes, size_in};
ghost use Rattle.xfs_journal.specs.declared.faults.MountFault.TheVariants.{Disk as DiskFault};

use crate::buffer::Buffer;
use crate::page::{Page, read_on};
use crate::read::read_with;
use crate::{BodyFault, MountFault, Rec};
use std::alloc::Global;
use xfs_disk::Disk;

// Reads so many bytes more; where they are not there, it is no journal from the gate byte on.
pub(crate) fn need<D: Disk>(
    disk: &mut D,
    page: &mut Page,
    out: &mut Buffer,
    count: usize,
    gate: u64,
) -> Result<(), MountFault>
    requires room { length out.old + count ≤ MOST }
    requires since { Since (D.held disk.old) page.old gate out.old }
    ensures since { OnOk result (Since (D.held disk.old) page.new gate out.new) }
    ensures count { OnOk result (length out.new ≡ length out.old + count) }
    ensures short { IfErr result (EndsAt (D.held disk.old) gate (length out.old + count)) }
    ensures reads { OnlyReads D.Disk disk.old disk.new (result ≡ Err DiskFault) }
{
    match read_on(disk, page, out, count) {
        Ok(true) => Ok(()),
        Ok(false) => Err(MountFault::NotJournal { at: gate }),
        Err(_) => Err(MountFault::Disk),
    }
}

// Whether the gate byte is open.
fn read_gate<D: Disk>(
    disk: &mut D,
    page: &mut Page,
    block: &mut Buffer,
    gate: u64,
) -> Result<bool, MountFault>
    requires gate { page.old.at ≡ gate }
    requires shows { IfTold (D.held disk.old) (λ all. Shows all page.old) }
    ensures since { OnOk result (Since (D.held disk.old) page.new gate block.new) }
    ensures count { OnOk result (length block.new ≡ 1) }
    ensures open { IfOk result (λ opened. opened ≡ true → IfTold (D.held disk.old) (λ all. slice_index (drop gate all) 0 ≡ 1)) }
    ensures shut { IfOk result (λ opened. opened ≡ false → IfTold (D.held disk.old) (λ all. IsShut (drop gate all))) }
    ensures broken { IfErr result (BreaksAt (D.held disk.old) gate) }
    ensures reads { OnlyReads D.Disk disk.old disk.new (result ≡ Err DiskFault) }
{
    block.clear();
    need(disk, page, block, 1, gate)?;
    Ok(block.bytes()[0] == 1)
}

// Reads the length of the body behind an open gate byte.
fn read_size<D: Disk>(
    disk: &mut D,
    page: &mut Page,
    block: &mut Buffer,
    gate: u64,
) -> Result<usize, MountFault>
    requires since { Since (D.held disk.old) page.old gate block.old }
    requires one { length block.old ≡ 1 }
    requires open { IfTold (D.held disk.old) (λ all. slice_index (drop gate all) 0 ≡ 1) }
    ensures since { OnOk result (Since (D.held disk.old) page.new gate block.new) }
    ensures count { OnOk result (length block.new ≡ 3) }
    ensures size { IfOk result (λ n. IfTold (D.held disk.old) (λ all. n ≡ size_in (drop gate all))) }
    ensures fits { OnOk result (IfTold (D.held disk.old) (λ all. AreSizeBytes (drop gate all))) }
    ensures most { IfOk result (λ n. n ≤ 1025) }
    ensures broken { IfErr result (BreaksAt (D.held disk.old) gate) }
    ensures reads { OnlyReads D.Disk disk.old disk.new (result ≡ Err DiskFault) }
{
    need(disk, page, block, 2, gate)?;
    let read = block.bytes();
    let size = usize::from(u16::from_be_bytes([read[1], read[2]]));
    if size > 1025 {
        return Err(MountFault::NotJournal { at: gate });
    }
    Ok(size)
}

// Reads the length and the body behind an open gate byte.
fn read_rest<D: Disk>(
    disk: &mut D,
    page: &mut Page,
    block: &mut Buffer,
    gate: u64,
) -> Result<(), MountFault>
    requires since { Since (D.held disk.old) page.old gate block.old }
    requires one { length block.old ≡ 1 }
    requires open { IfTold (D.held disk.old) (λ all. slice_index (drop gate all) 0 ≡ 1) }
    ensures since { OnOk result (Since (D.held disk.old) page.new gate block.new) }
    ensures long { OnOk result (3 ≤ length block.new) }
    ensures whole { OnOk result (IfTold (D.held disk.old) (λ all. length block.new ≡ 3 + size_in (drop gate all))) }
    ensures fits { OnOk result (IfTold (D.held disk.old) (λ all. AreSizeBytes (drop gate all))) }
    ensures broken { IfErr result (BreaksAt (D.held disk.old) gate) }
    ensures reads { OnlyReads D.Disk disk.old disk.new (result ≡ Err DiskFault) }
{
    let size = read_size(disk, page, block, gate)?;
    need(disk, page, block, size, gate)
}

// The record behind the gate byte at which the page stands, or none where it isn't open.
pub(crate) fn read_block<D: Disk>(
    alloc: Global,
    disk: &mut D,
    page: &mut Page,
    block: &mut Buffer,
    spare: &mut Buffer,
) -> Result<Option<Rec>, MountFault>
    requires shows { IfTold (D.held disk.old) (λ all. Shows all page.old) }
    ensures of_table { IfOk result (λ found. IfSome found (λ r. IsRecord r × (page.new.at ≡ page.old.at + length (1 ∷ framed r)))) }
    ensures record { IfOk result (λ found. IfSome found (Passes (D.held disk.old) page.old page.new)) }
    ensures behind { IfOk result (λ found. found ≡ None → page.new.at ≡ page.old.at + 1) }
    ensures small { page.old.at < 2 ^ 64 }
    ensures shut { IfOk result (λ found. found ≡ None → IfTold (D.held disk.old) (λ all. IsShut (drop page.old.at all))) }
    ensures broken { IfErr result (BreaksAt (D.held disk.old) page.old.at) }
    ensures reads { OnlyReads D.Disk disk.old disk.new (result ≡ Err DiskFault) }
{
    let gate = page.at();
    if !read_gate(disk, page, block, gate)? {
        return Ok(None);
    }
    read_rest(disk, page, block, gate)?;
    match read_with(alloc, &block.bytes()[3..], spare) {
        Ok(rec) => Ok(Some(rec)),
        Err(BodyFault::Form) => Err(MountFault::NotJournal { at: gate }),
        Err(BodyFault::Memory) => Err(MountFault::Memory),
    }
}
