//! The journal on a disk: a list of records, each on the disk before it counts.
ghost use Rattle.std.specs.Prelude.{MatchResult, ◌≡◌, ◌≢◌, ◌⊎◌, ◌↔◌, ℕ, ◌+◌, ◌-◌, ◌≤◌, ◌<◌, ◌||◌, nat_lt, [], ◌∷◌, ◌++◌, length, drop, take, ◌^◌, slice_get, true, false, Some, None, Err, IfOk, IfErr, OnOk, IfSome};
ghost use Rattle.xfs_base.specs.Causes.{IfTold, Rose};
ghost use Rattle.xfs_journal.specs.Image.{HasUnit, framed, end_of, size, IsRecord};
ghost use Rattle.xfs_journal.specs.Journal.{base_of, issues_in};
ghost use Rattle.xfs_journal.specs.JournalView.{exceeds, refusal, stops, IsNoJournal, HasVersion, HasPossible};
ghost use Rattle.xfs_journal.specs.Outcomes.{DiskGoesOn, IsAppended, IsLeftUnread, IsMigrated, IsMounted, IsNotAppended, IsReread, KeepsJournal, SparesList, WritesAtMost};
ghost use Rattle.xfs_journal.specs.declared.faults.AppendFault.TheVariants.{Disk as DiskFault, Memory as NoMemory};
ghost use Rattle.xfs_journal.specs.Paging.{IsQuiet, LeavesOldOrShort};
ghost use Rattle.xfs_journal.specs.declared.faults.MigrateFault.TheVariants.{Disk as MigrateDisk, Shut as IsShut};
ghost use Rattle.xfs_journal.specs.declared.faults.MountFault.TheVariants.{NotJournal, Disk as MountDisk, Memory as MountMemory};
ghost use Rattle.xfs_journal.specs.declared.record.Rec.{Rec};
ghost use Rattle.xfs_disk.specs.Moments.{EachImage};

use crate::body::fill;
use crate::buffer::Buffer;
use crate::gate::{next_gate, write_record};
use crate::migrate::carry_over;
use crate::mount::{Listed, load};
use crate::recent::Recent;
use crate::remount::reload;
use crate::{AppendFault, Limits, MigrateFault, MountFault, Rec};
use std::alloc::Global;
use std::marker::Model;
use xfs_base::Memory;
use xfs_disk::Disk;

/// A journal on a disk. It keeps its list, and one buffer for the bytes of a record.
#[derive(Drop)]
pub struct Journal<D: Disk> {
    alloc: Global,
    disk: D,
    recent: Recent,
    buffer: Buffer,
    // Where the list ends, and where it would end with the record in doubt.
    end: u64,
    far: u64,
    // Where the disk has the closing gate byte: there too, where it tells its bytes.
    gate: u64,
    limits: Limits,
    shut: bool,
    in_doubt: Option<Rec>,
    // The eighth byte, but behind a write that failed.
    version: Option<u8>,
}

/// Why a disk isn't mounted, and the disk.
#[derive(Drop)]
pub struct MountFail<D: Disk> {
    pub why: MountFault,
    pub disk: D,
}

impl<D: Disk> Model for Journal<D> {
    ghost use Rattle.xfs_journal.specs.JournalView.{JournalView, HasVersion, IsInDoubt, IsKept, IsMeasured};

    ghost Value = { JournalView D };

    ghost view = { λ j. record {
      disk = j.disk;
      records = j.recent.all;
      base = j.recent.base;
      limits = j.limits;
      shut = j.shut;
      room = j.recent.room;
      in_doubt = j.in_doubt;
    } };

    ghost invariant = { λ j. IsKept (D.held j.disk) (D.images j.disk) j.recent.all j.shut j.gate
        × IsInDoubt (D.held j.disk) (D.images j.disk) j.recent.all j.shut j.in_doubt
        × HasVersion (D.held j.disk) j.version × IsMeasured j.recent.all j.recent.base j.in_doubt j.end j.far };
}

impl<D: Disk> Journal<D> {
    /// Syncs the disk and reads its journal, of any version. At most 9 bytes that are no journal are made an empty one; a longer file
    /// is not written, and the disk is handed back with what hindered it.
    pub fn mount(alloc: Global, disk: D, limits: Limits) -> Result<Journal<D>, MountFail<D>>
        ensures ok { IfOk result (IsMounted D.Disk disk limits) }
        ensures not_journal { IfErr result (λ f. (at : ℕ) → f.why ≡ NotJournal at → IsNoJournal (D.held disk) at) }
        ensures disk { IfErr result (λ f. f.why ≡ MountDisk → Rose (D.faults disk) (D.faults f.disk)) }
        // But after a fault of the disk nothing was written.
        ensures unwritten { IfErr result (λ f. f.why ≢ MountDisk → IsQuiet D.Disk disk f.disk) }
        ensures long { IfTold (D.held disk) (λ all. 9 < length all → MatchResult result
            (λ j. IsQuiet D.Disk disk j.disk)
            (λ f. IsQuiet D.Disk disk f.disk)) }
        ensures goes_on { MatchResult result (λ j. DiskGoesOn D.Disk disk j.disk) (λ f. DiskGoesOn D.Disk disk f.disk) }

        // A crash at any moment of the call leaves what it might have left before, or at most 9 bytes where the file
        // had no more.
        ensures any_moment { MatchResult result (λ j. LeavesOldOrShort D.Disk disk j.disk) (λ f. LeavesOldOrShort D.Disk disk f.disk) }
    {
        let mut disk = disk;
        let Ok(mut buffer) = Buffer::new(alloc) else {
            return Err(MountFail {
                why: MountFault::Memory,
                disk,
            });
        };
        match load(alloc, &mut disk, &mut buffer) {
            Ok(
                Listed {
                    recent,
                    end,
                    version,
                },
            ) => Ok(Journal {
                alloc,
                disk,
                recent,
                buffer,
                end,
                far: end,
                gate: end,
                limits,
                shut: false,
                in_doubt: None,
                version: Some(version),
            }),
            Err(why) => Err(MountFail { why, disk }),
        }
    }

    /// The records that are in memory, the oldest first: those of the list behind its base.
    pub fn records(&self) -> &[Rec]
        ensures { result.now ≡ drop self.now.base self.now.records }
    {
        self.recent.records()
    }

    /// How many records of the list memory doesn't have: the number of its first one less one.
    pub fn base(&self) -> u64
        ensures base { result ≡ self.now.base }
        ensures led { self.now.base ≤ base_of self.now.records }
        ensures few { length self.now.records < 2 ^ 62 }
    {
        // Where the list ends is a u64, and each of its records has four bytes.
        let _end = self.end;
        self.recent.base()
    }

    /// How many nonces were issued in the records that memory doesn't have.
    pub fn issues(&self) -> u64
        ensures { result ≡ issues_in (take self.now.base self.now.records) }
    {
        self.recent.issues()
    }

    /// Lets go of the records in front of the last boot record. It takes no memory.
    pub fn rebase(&mut self)
        ensures based { self.new ≡ record self.old { base = base_of self.old.records; room = self.new.room } }
        ensures room { self.old.room ≤ self.new.room }
    {
        self.recent.rebase();
    }

    /// Whether the disk failed and the journal wasn't read again since. Either way a crash leaves the list, or the
    /// list with the record in doubt.
    pub fn shut(&self) -> bool
        ensures shut { result ≡ self.now.shut }
        ensures settled { self.now.shut ≡ false → self.now.in_doubt ≡ None }
        ensures possible { EachImage D.Disk self.now.disk (HasPossible self.now.records self.now.in_doubt) }
    {
        self.shut
    }

    /// Each limit less what the journal has of it, and 0 where it has as much or more: of the records those in memory, of
    /// the bytes those of the file.
    pub fn left(&self) -> Limits
        ensures records { result.records ≡ self.now.limits.records - (length self.now.records - self.now.base) }
        ensures bytes { result.bytes ≡ self.now.limits.bytes - size self.now.records }
    {
        Limits {
            records: self
                .limits
                .records
                .saturating_sub(self.records().len() as u64),
            bytes: self.limits.bytes.saturating_sub(self.end).saturating_sub(1),
        }
    }

    /// The disk, as it is. A crash of it leaves the list, or the list with the record in doubt.
    pub fn end(self) -> D
        ensures disk { result ≡ self.disk }
        ensures settled { self.shut ≡ false → self.in_doubt ≡ None }
        ensures possible { EachImage D.Disk result (HasPossible self.records self.in_doubt) }
    {
        self.disk
    }

    /// Makes room so that as many appends don't want memory.
    pub fn reserve(&mut self, records: u32) -> Result<(), Memory>
        ensures room { OnOk result (records ≤ self.new.room) }
        ensures same { self.new ≡ record self.old { room = self.new.room } }
    {
        self.recent.reserve(records as usize)
    }

    /// Syncs the disk and reads its journal again. After `Ok` the list is the kept one, or that one with the record
    /// whose append last answered `Disk`, and the next append doesn't want memory. After `Disk` and `NotJournal` the
    /// journal is shut.
    pub fn remount(&mut self) -> Result<(), MountFault>
        ensures ok { OnOk result (IsReread D.Disk self.old self.new) }
        ensures err { IfErr result (IsLeftUnread D.Disk self.old self.new) }
        ensures keeps { KeepsJournal D.Disk self.old self.new }

        // A disk that tells has one of the two lists, so it isn't refused as no journal, nor written: a crash at any
        // moment of the call leaves what it might have left before.
        ensures possible { EachImage D.Disk self.old.disk (HasPossible self.old.records self.old.in_doubt) }
        ensures any_moment { IfTold (D.held self.old.disk) (λ _. IsQuiet D.Disk self.old.disk self.new.disk) }
    {
        match reload(
            self.alloc,
            &mut self.disk,
            &mut self.buffer,
            &self.recent,
            &self.in_doubt,
        ) {
            Ok(
                Listed {
                    recent,
                    end,
                    version,
                },
            ) => {
                self.end = end_again(self.end, self.far, &self.recent, &recent);
                self.recent.take_from(recent);
                self.gate = end;
                self.shut = false;
                self.in_doubt = None;
                self.version = Some(version);
                Ok(())
            }
            Err(why) => {
                self.shut = is_shut_by(self.shut, why);
                Err(why)
            }
        }
    }

    /// Carries a file of version 1 over to version 2: where its eighth byte is the digit 1, writes the digit 2 there
    /// and syncs it. Any other eighth byte stays. After `Disk` the journal goes on as it was, and the byte may be any.
    pub fn migrate(&mut self) -> Result<(), MigrateFault>
        ensures shut { (result ≡ Err IsShut) ↔ (self.old.shut ≡ true) }
        ensures cause { IfErr result (λ f. f ≡ MigrateDisk → Rose (D.faults self.old.disk) (D.faults self.new.disk)) }

        // Over a disk that tells, by its eighth byte: a 1 becomes a 2 that a crash leaves; else nothing is written.
        ensures ok { OnOk result (IsMigrated D.Disk self.old self.new) }
        ensures quiet { IfTold (D.held self.old.disk) (λ all. slice_get all 7 ≢ Some 0x31 → IsQuiet D.Disk self.old.disk self.new.disk) }
        ensures untouched { self.old.shut ≡ true → self.new ≡ self.old }
        ensures same { self.new ≡ record self.old { disk = self.new.disk } }
        ensures goes_on { DiskGoesOn D.Disk self.old.disk self.new.disk }
        ensures crashes { self.old.shut ≡ false → SparesList D.Disk self.old.disk self.new.disk self.old.records }
    {
        if self.shut {
            return Err(MigrateFault::Shut);
        }
        match carry_over(&mut self.disk, &self.recent, self.gate, self.version) {
            Ok(version) => {
                self.version = Some(version);
                Ok(())
            }
            Err(_) => {
                self.version = None;
                Err(MigrateFault::Disk)
            }
        }
    }

    /// Appends a record and answers its number: from then on each crash leaves it. After `Disk` the journal is shut,
    /// and a crash leaves the list with the record or without it.
    pub fn append(&mut self, rec: Rec) -> Result<u64, AppendFault>
        requires unit { HasUnit rec }

        // In this order: `Shut`, `Full`, `Memory`, `Disk`.
        ensures refused { IfSome (refusal self.old rec) (λ f. result ≡ Err f) }
        ensures only { IfErr result (λ f. (refusal self.old rec ≡ Some f) ⊎ ((f ≡ NoMemory) ⊎ (f ≡ DiskFault))) }

        ensures ok { IfOk result (IsAppended D.Disk self.old self.new rec) }
        ensures err { IfErr result (IsNotAppended D.Disk self.old self.new rec) }
        ensures keeps { KeepsJournal D.Disk self.old self.new }
        ensures room { self.old.room ≤ self.new.room + 1 }
        ensures crashes { self.old.shut ≡ false → WritesAtMost D.Disk self.old.disk self.new.disk self.old.records rec }
    {
        prepare(
            self.shut,
            self.limits,
            &mut self.recent,
            &rec,
            self.end,
            &mut self.buffer,
        )?;
        let end = self.end + self.buffer.len() as u64;
        let gate = next_gate(self.gate, self.buffer.len());
        let recent = &self.recent;
        if write_record(
            &mut self.disk,
            recent,
            &rec,
            self.gate,
            gate,
            self.buffer.bytes(),
        )
        .is_err()
        {
            self.far = end;
            self.shut = true;
            self.in_doubt = Some(rec);
            self.version = None;
            return Err(AppendFault::Disk);
        }
        self.end = end;
        self.gate = gate;
        self.recent.push(rec);
        Ok(self.recent.len())
    }
}

// Whether a journal is shut once it wasn't read again for this: want of memory leaves it as it was.
fn is_shut_by(shut: bool, why: MountFault) -> bool
    ensures memory { why ≡ MountMemory → result ≡ shut }
    ensures other { why ≢ MountMemory → result ≡ true }
{
    match why {
        MountFault::Memory => shut,
        MountFault::NotJournal { .. } | MountFault::Disk => true,
    }
}

// Where a list ends that was read again, which is the kept one, or that one with the record in doubt.
fn end_again(end: u64, far: u64, kept: &Recent, found: &Recent) -> u64
    ensures same { length found.now.all ≤ length kept.now.all → result ≡ end }
    ensures longer { length kept.now.all < length found.now.all → result ≡ far }
{
    if found.len() > kept.len() { far } else { end }
}

// Fills the buffer with what a record takes behind the gate, and makes room for it in the list, where nothing
// refuses it.
fn prepare(
    shut: bool,
    limits: Limits,
    recent: &mut Recent,
    rec: &Rec,
    end: u64,
    buffer: &mut Buffer,
) -> Result<(), AppendFault>
    requires unit { HasUnit rec.now }
    requires place { end ≡ end_of recent.old.all }
    ensures refused { IfSome (stops shut limits recent.old.base recent.old.all rec.now) (λ f. result ≡ Err f) }
    ensures only { IfErr result (λ f. (stops shut limits recent.old.base recent.old.all rec.now ≡ Some f) ⊎ (f ≡ NoMemory)) }
    ensures not_disk { IfErr result (λ f. f ≢ DiskFault) }
    ensures reserved { 1 ≤ recent.old.room → IfErr result (λ f. f ≢ NoMemory) }
    ensures open { OnOk result (shut ≡ false) }
    ensures room { OnOk result (1 ≤ recent.new.room) }
    ensures bytes { OnOk result (buffer.new ≡ framed rec.now ++ 0 ∷ []) }
    ensures of_table { OnOk result (IsRecord rec.now) }
    ensures small { OnOk result (end + length buffer.new < limits.bytes) }
    ensures same { (recent.new.all ≡ recent.old.all) × (recent.new.base ≡ recent.old.base) }
    ensures kept { recent.old.room ≤ recent.new.room }
{
    if shut {
        return Err(AppendFault::Shut);
    }
    fill(buffer, rec);
    if is_full(limits, recent, rec, end, buffer.bytes()) {
        return Err(AppendFault::Full);
    }
    if recent.reserve(1).is_err() {
        return Err(AppendFault::Memory);
    }
    Ok(())
}

// Whether the record whose bytes these are exceeds a limit.
fn is_full(limits: Limits, recent: &Recent, rec: &Rec, end: u64, bytes: &[u8]) -> bool
    requires place { end ≡ end_of recent.now.all }
    requires bytes { bytes.now ≡ framed rec.now ++ 0 ∷ [] }
    ensures full { result ≡ exceeds limits recent.now.base (recent.now.all ++ rec.now ∷ []) }
    ensures small { result ≡ false → end + length bytes.now < limits.bytes }
{
    let kept = recent.len() - recent.base();
    passes_by(limits, kept, end, bytes.len() as u64)
}

fn passes_by(limits: Limits, records: u64, end: u64, bytes: u64) -> bool
    ensures full { result ≡ (nat_lt limits.records (records + 1) || nat_lt limits.bytes (end + bytes + 1)) }
    ensures small { result ≡ false → end + bytes < limits.bytes }
{
    if records >= limits.records {
        return true;
    }
    match end.checked_add(bytes) {
        Some(end) => end >= limits.bytes,
        None => true,
    }
}
