//! A disk that fails calls by a rule.
ghost use Rattle.std.specs.Prelude.{◌≡◌, ◌≤◌, ◌+◌, ◌↔◌, ℕ, Contains, IsTrue, Some, OnOk, OnErr};
ghost use Rattle.xfs_base.specs.Causes.{HasCause, next_count};
ghost use Rattle.xfs_disk.specs.MemDisk.{bytes_of, history_of, steps_of, moment_of, faults_of, IsImage, WasImage};
ghost use Rattle.xfs_disk.specs.Images.{as_read, counts_now, only_now};

use crate::{Disk, MemDisk};
use xfs_base::Failed;

/// Which calls of a disk fail.
pub trait FaultRule: Drop {
    /// The call behind so many others is one that fails.
    ghost names: { Self → ℕ → Type 0 };

    fn fails(&self, made: u64) -> bool
        ensures { IsTrue result ↔ names self.now made };
}

/// The places, from 1, of the calls that fail.
impl FaultRule for Vec<u64> {
    ghost names = { λ places made. Contains places.items (next_count made) };

    fn fails(&self, made: u64) -> bool {
        self.contains(&made.saturating_add(1))
    }
}

/// How many calls are passed on before each one fails.
impl FaultRule for u64 {
    ghost names = { λ passed made. passed ≤ made };

    fn fails(&self, made: u64) -> bool {
        *self <= made
    }
}

/// Fails the calls that its rule names. All five methods are counted together. A call that is failed does nothing.
#[derive(Drop)]
pub struct FaultyDisk<R: FaultRule> {
    inner: MemDisk,
    rule: R,
    calls: u64,
    failed: u64,
}

/// Fails the calls at these places, from 1, and goes on.
pub type FailDisk = FaultyDisk<Vec<u64>>;

/// Passes so many calls on, and fails every call after them.
pub type FuseDisk = FaultyDisk<u64>;

impl<R: FaultRule> FaultyDisk<R> {
    ghost use Rattle.std.specs.Prelude.{◌≡◌};
    ghost use Rattle.xfs_disk.specs.MemDisk.{faults_of};
    ghost use Rattle.xfs_disk.specs.Wrapped.{inner_of, rule_of, calls_of, faulty_faults};

    /// Over this disk in memory.
    pub fn new(inner: MemDisk, rule: R) -> FaultyDisk<R>
        ensures inner { inner_of result ≡ inner }
        ensures rule { rule_of result ≡ rule }
        ensures calls { calls_of result ≡ 0 }
        ensures faults { faulty_faults result ≡ faults_of inner }
    {
        FaultyDisk {
            inner,
            rule,
            calls: 0,
            failed: 0,
        }
    }

    /// The disk in memory.
    pub fn inner(self) -> MemDisk
        ensures { result ≡ inner_of self }
    {
        self.inner
    }
}

// Counts a call, and fails it where the rule names it.
fn pass<R: FaultRule>(rule: &R, calls: &mut u64, failed: &mut u64) -> Result<(), Failed>
    ensures cause { HasCause failed.old failed.new result }
    ensures calls { calls.new ≡ next_count calls.old }
    ensures ok { OnOk result ((¬ R.names rule.now calls.old) × (failed.new ≡ failed.old)) }
    ensures err { OnErr result (R.names rule.now calls.old) }
{
    let made = *calls;
    *calls = made.saturating_add(1);
    if rule.fails(made) {
        *failed = failed.saturating_add(1);
        return Err(Failed);
    }
    Ok(())
}

impl<R: FaultRule> Disk for FaultyDisk<R> {
    ghost use Rattle.std.specs.Prelude.{◌≡◌, ◌≤◌, length, IfOk, OnOk};
    ghost use Rattle.std.specs.Io.{ReadsAtMost};
    ghost use Rattle.xfs_disk.specs.Disk.{overlaid, resized, Gives, Torn, Cut, ImagesFollow, Only};
    ghost use Rattle.xfs_disk.specs.MemDisk.{bytes_of, IsImage, KeepsBytes};
    ghost use Rattle.xfs_disk.specs.Wrapped.{inner_of, FailsByRule};

    ghost held = { λ f. Some (bytes_of f.inner) };

    ghost images = { λ f. IsImage f.inner };

    ghost moment = { λ f. moment_of f.inner };

    ghost images_since = { λ f. WasImage f.inner };

    ghost faults = { λ f. faults_of f.inner + f.failed };

    ghost as_read = { λ f all told. as_read (bytes_of f.inner) (steps_of f.inner) all told };

    ghost counts_now = { λ f t c le now. counts_now (bytes_of f.inner) (steps_of f.inner) t c now };

    ghost only_now = { λ f c left. only_now (bytes_of f.inner) (history_of f.inner) c left };

    fn len(&mut self) -> Result<u64, Failed>
        ensures value { IfOk result (λ n. n ≡ length (bytes_of (inner_of self.old))) }
        ensures keeps { KeepsBytes (inner_of self.old) (inner_of self.new) }
        ensures fails { FailsByRule R.FaultRule self.old self.new result }
    {
        pass(&self.rule, &mut self.calls, &mut self.failed)?;
        self.inner.len()
    }

    fn read(&mut self, at: u64, into: &mut [u8]) -> Result<usize, Failed>
        ensures bound { ReadsAtMost result into.new }
        ensures bytes { IfOk result (λ n. Gives (bytes_of (inner_of self.old)) at n into.new) }
        ensures keeps { KeepsBytes (inner_of self.old) (inner_of self.new) }
        ensures fails { FailsByRule R.FaultRule self.old self.new result }
    {
        pass(&self.rule, &mut self.calls, &mut self.failed)?;
        self.inner.read(at, into)
    }

    fn write_at(&mut self, at: u64, bytes: &[u8]) -> Result<(), Failed>
        requires within { at ≤ length (bytes_of (inner_of self.old)) }
        ensures written { OnOk result (bytes_of (inner_of self.new) ≡ overlaid (bytes_of (inner_of self.old)) at bytes.now) }
        ensures crash { ImagesFollow (Torn at (length bytes.now)) (IsImage (inner_of self.old)) (IsImage (inner_of self.new)) }
        ensures fails { FailsByRule R.FaultRule self.old self.new result }
    {
        pass(&self.rule, &mut self.calls, &mut self.failed)?;
        self.inner.write_at(at, bytes)
    }

    fn cut(&mut self, len: u64) -> Result<(), Failed>
        ensures cut { OnOk result (bytes_of (inner_of self.new) ≡ resized (bytes_of (inner_of self.old)) len) }
        ensures crash { ImagesFollow (Cut len) (IsImage (inner_of self.old)) (IsImage (inner_of self.new)) }
        ensures fails { FailsByRule R.FaultRule self.old self.new result }
    {
        pass(&self.rule, &mut self.calls, &mut self.failed)?;
        self.inner.cut(len)
    }

    fn sync(&mut self) -> Result<(), Failed>
        ensures durable { OnOk result (Only (bytes_of (inner_of self.old)) (IsImage (inner_of self.new))) }
        ensures keeps { KeepsBytes (inner_of self.old) (inner_of self.new) }
        ensures fails { FailsByRule R.FaultRule self.old self.new result }
    {
        pass(&self.rule, &mut self.calls, &mut self.failed)?;
        self.inner.sync()
    }
}
