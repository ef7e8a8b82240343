//! A disk in memory. It keeps what each call since the last sync changed, so a crash may leave all that the contract allows.
//! What changed before is kept for proofs alone.
ghost use Rattle.std.specs.Prelude.{◌≡◌, ◌+◌, ◌-◌, ◌<◌, ◌≤◌, ◌++◌, [], ◌∷◌, Some, length, take, drop, replicate, reverse, IsTrue, IfOk, OnOk, OnErr};
ghost use Rattle.xfs_base.specs.Causes.{Rose};
ghost use Rattle.xfs_disk.specs.declared.step.Step.TheVariants.{Resize, Sync};
ghost use Rattle.xfs_disk.specs.Disk.{overlaid, resized};
ghost use Rattle.xfs_disk.specs.Steps.{LeftNow, LeftSince, NotesWrite, history, is_sound, synced, blotted, crashed};
ghost use Rattle.xfs_disk.specs.Images.{as_read, counts_now, only_now};

use crate::Disk;
use crate::step::Step;
use std::alloc::{AllocError, Global};
use std::mem;
use std::snapshot::Snapshot;
use xfs_base::Failed;

/// A disk in memory. It fails only where memory for what it keeps is refused; then nothing has changed.
#[derive(Drop)]
pub struct MemDisk {
    alloc: Global,
    bytes: Vec<u8>,
    // Since the last sync.
    steps: Vec<Step>,
    // Memory for the bytes that the next write covers.
    spare: Vec<u8>,
    // The steps that each sync settled. They have no bytes, since only proofs read them.
    settled: Vec<Snapshot<Vec<Step>>>,
    reads: u64,
    widest: u64,
    faults: u64,
    ghost sound: { IsTrue (is_sound bytes.items (reverse steps.items)) },
}

impl MemDisk {
    ghost use Rattle.std.specs.Prelude.{◌≡◌, [], IsTrue};
    ghost use Rattle.xfs_disk.specs.Steps.{crashed};
    ghost use Rattle.xfs_disk.specs.MemDisk.{bytes_of, steps_of, reads_of, widest_of, faults_of, IsImage};

    /// A disk with these bytes, all of them synced.
    pub fn new(alloc: Global, bytes: Vec<u8>) -> MemDisk
        ensures bytes { bytes_of result ≡ bytes.items }
        ensures settled { steps_of result ≡ [] }
        ensures unread { (reads_of result ≡ 0) × (widest_of result ≡ 0) }
        ensures faults { faults_of result ≡ 0 }
    {
        MemDisk {
            alloc,
            bytes,
            steps: Vec::new(alloc),
            spare: Vec::new(alloc),
            settled: Vec::new(alloc),
            reads: 0,
            widest: 0,
            faults: 0,
        }
    }

    /// What a read gives.
    pub fn bytes(&self) -> &[u8]
        ensures { result.now ≡ bytes_of self.now }
    {
        &self.bytes
    }

    /// The number of its reads, or the last value of a `u64`.
    pub fn reads(&self) -> u64
        ensures { result ≡ reads_of self.now }
    {
        self.reads
    }

    /// The length of the longest buffer that a read was handed, 0 before the first read.
    pub fn widest(&self) -> u64
        ensures { result ≡ widest_of self.now }
    {
        self.widest
    }

    /// One of its images, all of it synced. With pick 0 all is lost since the last sync; another pick leaves its
    /// last eight bits in each byte of the newest write.
    pub fn crash(self, pick: u64) -> MemDisk
        ensures image { IsImage self (bytes_of result) }
        ensures picked { bytes_of result ≡ crashed pick (bytes_of self) (steps_of self) }
        ensures settled { steps_of result ≡ [] }
    {
        MemDisk::new(self.alloc, leave(self.bytes, self.steps, pick))
    }
}

impl Disk for MemDisk {
    ghost use Rattle.std.specs.Prelude.{◌≡◌, ◌≤◌, Some, length, IfOk, OnOk, OnErr};
    ghost use Rattle.std.specs.Io.{ReadsAtMost};
    ghost use Rattle.xfs_base.specs.Causes.{HasCause};
    ghost use Rattle.xfs_disk.specs.Disk.{overlaid, resized, Gives, Torn, Cut, ImagesFollow, Only};
    ghost use Rattle.xfs_disk.specs.MemDisk.{bytes_of, faults_of, IsImage, TimeGoesOn, KeepsBytes, CountsRead, IsUnread, ActsWhole};

    ghost held = { λ m. Some m.bytes.items };

    ghost images = { λ m. LeftNow m.bytes.items (reverse (history m.settled.items m.steps.items)) };

    ghost moment = { λ m. length (history m.settled.items m.steps.items) };

    ghost images_since = { λ m. LeftSince m.bytes.items (reverse (history m.settled.items m.steps.items)) };

    ghost faults = { λ m. m.faults };

    ghost as_read = { λ m all told. as_read m.bytes.items (reverse (history m.settled.items m.steps.items)) all told };

    ghost counts_now = { λ m t c le now. counts_now m.bytes.items (reverse (history m.settled.items m.steps.items)) t c now };

    ghost only_now = { λ m c left. only_now m.bytes.items (history m.settled.items m.steps.items) c left };

    fn len(&mut self) -> Result<u64, Failed>
        ensures value { IfOk result (λ n. n ≡ length (bytes_of self.old)) }
        ensures keeps { KeepsBytes self.old self.new }
        ensures time { TimeGoesOn self.old self.new }
        ensures cause { HasCause (faults_of self.old) (faults_of self.new) result }
        ensures unread { IsUnread self.old self.new }
        ensures passed { OnErr result ⊥ }
    {
        Ok(self.bytes.len() as u64)
    }

    fn read(&mut self, at: u64, into: &mut [u8]) -> Result<usize, Failed>
        ensures bound { ReadsAtMost result into.new }
        ensures bytes { IfOk result (λ n. Gives (bytes_of self.old) at n into.new) }
        ensures keeps { KeepsBytes self.old self.new }
        ensures time { TimeGoesOn self.old self.new }
        ensures cause { HasCause (faults_of self.old) (faults_of self.new) result }
        ensures counted { CountsRead self.old self.new (length into.old) }
        ensures passed { OnErr result ⊥ }
    {
        self.reads = self.reads.saturating_add(1);
        self.widest = self.widest.max(into.len() as u64);
        let all = self.bytes.as_slice();
        let start = all.len().min(at as usize);
        let count = into.len().min(all.len() - start);
        into[..count].copy_from_slice(&all[start..start + count]);
        Ok(count)
    }

    fn write_at(&mut self, at: u64, bytes: &[u8]) -> Result<(), Failed>
        requires within { at ≤ length (bytes_of self.old) }
        ensures written { OnOk result (bytes_of self.new ≡ overlaid (bytes_of self.old) at bytes.now) }
        ensures crash { ImagesFollow (Torn at (length bytes.now)) (IsImage self.old) (IsImage self.new) }
        ensures acts { ActsWhole self.old self.new result }
    {
        if overwrite(
            self.alloc,
            &mut self.bytes,
            &mut self.steps,
            &mut self.spare,
            at as usize,
            bytes,
        )
        .is_err()
        {
            return Err(fault(&mut self.faults));
        }
        Ok(())
    }

    fn cut(&mut self, len: u64) -> Result<(), Failed>
        ensures cut { OnOk result (bytes_of self.new ≡ resized (bytes_of self.old) len) }
        ensures crash { ImagesFollow (Cut len) (IsImage self.old) (IsImage self.new) }
        ensures acts { ActsWhole self.old self.new result }
    {
        if resize(self.alloc, &mut self.bytes, &mut self.steps, len).is_err() {
            return Err(fault(&mut self.faults));
        }
        Ok(())
    }

    fn sync(&mut self) -> Result<(), Failed>
        ensures durable { OnOk result (Only (bytes_of self.old) (IsImage self.new)) }
        ensures keeps { KeepsBytes self.old self.new }
        ensures acts { ActsWhole self.old self.new result }
    {
        if settle(&mut self.steps, &mut self.spare, &mut self.settled).is_err() {
            return Err(fault(&mut self.faults));
        }
        Ok(())
    }
}

// Counts a fault.
fn fault(faults: &mut u64) -> Failed
    ensures rose { Rose faults.old faults.new }
    ensures later { faults.old ≤ faults.new }
{
    *faults = faults.saturating_add(1);
    Failed
}

// Notes a sync, and lets go of the steps that it settles, but for the memory of a write.
fn settle(
    steps: &mut Vec<Step>,
    spare: &mut Vec<u8>,
    settled: &mut Vec<Snapshot<Vec<Step>>>,
) -> Result<(), AllocError>
    ensures none { OnOk result (steps.new.items ≡ []) }
    ensures ok { OnOk result (history settled.new.items steps.new.items ≡ history settled.old.items steps.old.items ++ Sync ∷ []) }
    ensures err { OnErr result ((steps.new.items ≡ steps.old.items) × (settled.new.items ≡ settled.old.items)) }
{
    settled.reserve(1)?;
    settled.push_reserved(Snapshot::of(steps));
    if let Some(Step::Write { was, .. }) = steps.pop() {
        *spare = was;
    }
    steps.clear();
    Ok(())
}

// Writes and notes the step, or leaves both as they are.
fn overwrite(
    alloc: Global,
    all: &mut Vec<u8>,
    steps: &mut Vec<Step>,
    spare: &mut Vec<u8>,
    at: usize,
    bytes: &[u8],
) -> Result<(), AllocError>
    requires { at ≤ length all.old.items }
    ensures written { OnOk result (all.new.items ≡ overlaid all.old.items at bytes.now) }
    ensures noted { OnOk result (NotesWrite at (length bytes.now) all.old.items steps.old.items steps.new.items) }
    ensures err { OnErr result ((all.new.items ≡ all.old.items) × (steps.new.items ≡ steps.old.items)) }
{
    let over = bytes.len().min(all.len() - at);
    let was = copy_into(alloc, spare, &all[at..at + over])?;
    steps.reserve(1)?;
    all.extend_from_slice(&bytes[over..])?;
    all[at..at + over].copy_from_slice(&bytes[..over]);
    steps.push_reserved(Step::Write {
        at,
        len: bytes.len(),
        was,
    });
    Ok(())
}

// A copy in memory that is to spare.
fn copy_into(alloc: Global, spare: &mut Vec<u8>, bytes: &[u8]) -> Result<Vec<u8>, AllocError>
    ensures { IfOk result (λ copy. copy.items ≡ bytes.now) }
{
    let mut copy = mem::replace(spare, Vec::new(alloc));
    copy.clear();
    copy.extend_from_slice(bytes)?;
    Ok(copy)
}

// Sets the length and notes the step, or leaves both as they are.
fn resize(
    alloc: Global,
    all: &mut Vec<u8>,
    steps: &mut Vec<Step>,
    len: u64,
) -> Result<(), AllocError>
    ensures cut { OnOk result (all.new.items ≡ resized all.old.items len) }
    ensures noted { OnOk result ((was : _) × (was.items ≡ all.old.items)
        × (steps.new.items ≡ steps.old.items ++ Resize len was ∷ [])) }
    ensures err { OnErr result ((all.new.items ≡ all.old.items) × (steps.new.items ≡ steps.old.items)) }
{
    let size = len as usize;
    let mut next = all[..all.len().min(size)].to_vec(alloc)?;
    next.resize(size, 0)?;
    steps.reserve(1)?;
    let was = mem::replace(all, next);
    steps.push_reserved(Step::Resize { len, was });
    Ok(())
}

fn leave(bytes: Vec<u8>, steps: Vec<Step>, pick: u64) -> Vec<u8>
    requires { IsTrue (is_sound bytes.items (reverse steps.items)) }
    ensures { result.items ≡ crashed pick bytes.items (reverse steps.items) }
{
    if pick == 0 {
        lose(bytes, steps)
    } else {
        blot(bytes, steps, (pick % 256) as u8)
    }
}

// Takes back what was done since the last sync.
fn lose(mut bytes: Vec<u8>, mut steps: Vec<Step>) -> Vec<u8>
    requires { IsTrue (is_sound bytes.items (reverse steps.items)) }
    ensures { result.items ≡ synced bytes.items (reverse steps.items) }
{
    while let Some(step) = steps.pop() {
        match step {
            Step::Write { at, len, was } => undo(&mut bytes, at, len, &was),
            Step::Resize { was, .. } => bytes = was,
            Step::Sync => return bytes,
        }
    }
    bytes
}

fn undo(bytes: &mut Vec<u8>, at: usize, len: usize, was: &[u8])
    requires within { at + len ≤ length bytes.old.items }
    requires no_longer { length was.now ≤ len }
    requires shorter { length was.now < len → at + len ≡ length bytes.old.items }
    ensures { bytes.new.items ≡ take at bytes.old.items ++ was.now ++ drop (at + len) bytes.old.items }
{
    if was.len() < len {
        bytes.truncate(at + was.len());
    }
    bytes[at..at + was.len()].copy_from_slice(was);
}

// Leaves one byte in the range of the newest write.
fn blot(mut bytes: Vec<u8>, mut steps: Vec<Step>, byte: u8) -> Vec<u8>
    requires { IsTrue (is_sound bytes.items (reverse steps.items)) }
    ensures { result.items ≡ blotted byte bytes.items (reverse steps.items) }
{
    if let Some(Step::Write { at, len, .. }) = steps.pop() {
        smear(&mut bytes, at, len, byte);
    }
    bytes
}

fn smear(bytes: &mut Vec<u8>, at: usize, len: usize, byte: u8)
    requires { at + len ≤ length bytes.old.items }
    ensures { bytes.new.items ≡ overlaid bytes.old.items at (replicate len byte) }
{
    bytes[at..at + len].fill(byte);
}
