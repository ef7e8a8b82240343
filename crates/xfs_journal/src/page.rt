//! Reading a disk's bytes in their order, through one page.
ghost use Rattle.std.specs.Prelude.{◌≡◌, ◌+◌, ◌<◌, ◌≤◌, min, true, false, [], ◌++◌, length, take, drop, IfOk, IsErr, OnOk};
ghost use Rattle.xfs_base.specs.Causes.{IfTold};
ghost use Rattle.xfs_journal.specs.declared.buffer.TheConstants.{MOST};
ghost use Rattle.xfs_journal.specs.Paging.{Shows, Took, OnlyReads};

use crate::buffer::Buffer;
use std::marker::Model;
use xfs_base::Failed;
use xfs_disk::Disk;

/// The bytes of a disk from a place on, as far as they were read.
#[derive(Drop)]
pub(crate) struct Page {
    bytes: [u8; 4096],
    from: usize,
    to: usize,
    at: u64,
    len: u64,
}

impl Model for Page {
    ghost use Rattle.std.specs.Prelude.{◌≡◌, ◌+◌, ◌-◌, ◌≤◌, take, drop, length};
    ghost use Rattle.xfs_journal.specs.Paging.{PageView};

    ghost Value = { PageView };

    ghost view = { λ p. record {
      window = take (p.to - p.from) (drop p.from p.bytes);
      at = p.at;
      len = p.len;
    } };

    ghost invariant = { λ p. (p.from ≤ p.to) × (p.to ≤ length p.bytes) × (p.at + (p.to - p.from) ≤ p.len) };
}

impl Page {
    // Nothing of so many bytes was read.
    pub(crate) fn new(len: u64) -> Page
        ensures window { result.window ≡ [] }
        ensures at { result.at ≡ 0 }
        ensures len { result.len ≡ len }
    {
        Page {
            bytes: [0; 4096],
            from: 0,
            to: 0,
            at: 0,
            len,
        }
    }

    pub(crate) fn at(&self) -> u64
        ensures value { result ≡ self.now.at }
        ensures within { self.now.at + length self.now.window ≤ self.now.len }
    {
        self.at
    }

    // Hands over what it has, at most so many bytes.
    fn give(&mut self, out: &mut Buffer, most: usize) -> usize
        requires room { length out.old + most ≤ MOST }
        ensures count { result ≡ min most (length self.old.window) }
        ensures out { out.new ≡ out.old ++ take result self.old.window }
        ensures window { self.new.window ≡ drop result self.old.window }
        ensures at { self.new.at ≡ self.old.at + result }
        ensures len { self.new.len ≡ self.old.len }
    {
        let count = most.min(self.to - self.from);
        out.put(&self.bytes[self.from..self.from + count]);
        self.from += count;
        self.at += count as u64;
        count
    }

    // Reads what comes next, where nothing is left to hand over.
    fn refill<D: Disk>(&mut self, disk: &mut D) -> Result<(), Failed>
        requires shows { IfTold (D.held disk.old) (λ all. Shows all self.old) }
        ensures shows { OnOk result (IfTold (D.held disk.old) (λ all. Shows all self.new)) }
        ensures end { OnOk result (self.new.window ≡ [] → IfTold (D.held disk.old) (λ all. length all ≤ self.old.at)) }
        ensures at { self.new.at ≡ self.old.at }
        ensures len { self.new.len ≡ self.old.len }
        ensures reads { OnlyReads D.Disk disk.old disk.new (IsErr result) }
    {
        if self.from < self.to || self.at == self.len {
            return Ok(());
        }
        let count = disk.read(self.at, &mut self.bytes)?;
        self.from = 0;
        self.to = at_most(count, self.len - self.at);
        Ok(())
    }
}

// So many, but no more than are left.
fn at_most(count: usize, left: u64) -> usize
    ensures { result ≡ min count left }
{
    if (count as u64) < left {
        count
    } else {
        left as usize
    }
}

// Puts the next bytes behind those that were read, at most so many; none only at the end.
fn read_some<D: Disk>(
    disk: &mut D,
    page: &mut Page,
    out: &mut Buffer,
    most: usize,
) -> Result<usize, Failed>
    requires some { 1 ≤ most }
    requires room { length out.old + most ≤ MOST }
    requires shows { IfTold (D.held disk.old) (λ all. Shows all page.old) }
    ensures took { IfOk result (λ n. Took (D.held disk.old) page.old page.new out.old out.new n) }
    ensures most { IfOk result (λ n. n ≤ most) }
    ensures end { IfOk result (λ n. n ≡ 0 → IfTold (D.held disk.old) (λ all. length all ≤ page.old.at)) }
    ensures reads { OnlyReads D.Disk disk.old disk.new (IsErr result) }
{
    page.refill(disk)?;
    Ok(page.give(out, most))
}

// Puts so many bytes behind those that were read, or all that are left where those are fewer.
pub(crate) fn read_on<D: Disk>(
    disk: &mut D,
    page: &mut Page,
    out: &mut Buffer,
    count: usize,
) -> Result<bool, Failed>
    requires room { length out.old + count ≤ MOST }
    requires shows { IfTold (D.held disk.old) (λ all. Shows all page.old) }
    ensures took { IfOk result (λ whole. whole ≡ true → Took (D.held disk.old) page.old page.new out.old out.new count) }
    ensures end { IfOk result (λ whole. whole ≡ false → IfTold (D.held disk.old) (λ all. length all < page.old.at + count)) }
    ensures reads { OnlyReads D.Disk disk.old disk.new (IsErr result) }
{
    let mut missing = count;
    while missing > 0 {
        let got = read_some(disk, page, out, missing)?;
        if got == 0 {
            return Ok(false);
        }
        missing -= got;
    }
    Ok(true)
}
