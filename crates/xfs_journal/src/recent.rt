//! A list of records of which memory has the end alone. The front is kept for proofs, without a byte.
ghost use Rattle.std.specs.Prelude.{◌≡◌, ◌≤◌, ◌<◌, ◌+◌, ◌-◌, ◌^◌, ◌++◌, ◌∷◌, [], length, take, drop, vec_len, vec_capacity, OnOk, OnErr};
ghost use Rattle.xfs_journal.specs.Holding.{IsHeld};
ghost use Rattle.xfs_journal.specs.RecentView.{FitsOneMore};
ghost use Rattle.xfs_journal.specs.Journal.{base_of, is_boot, issues_in};
ghost use Rattle.xfs_journal.specs.declared.keep.Keep.TheVariants.{SinceBoot, Behind};

use crate::Rec;
use crate::keep::Keep;
use std::alloc::Global;
use std::marker::Model;
use std::snapshot::Snapshot;
use xfs_base::Memory;

/// A list of which the records behind its base are in memory.
#[cycle(recent)]
#[derive(Drop)]
pub(crate) struct Recent {
    records: Vec<Rec>,
    before: Past,
    base: u64,
    // How many nonces were issued in front of it.
    issues: u64,
}

// What the list was before it last let go of records.
#[cycle(recent)]
#[derive(Drop)]
enum Past {
    Nothing,
    Was(Snapshot<Recent>),
}

impl Model for Recent {
    ghost use Rattle.std.specs.Prelude.{◌++◌, ◌-◌, vec_len, vec_capacity};
    ghost use Rattle.xfs_journal.specs.RecentView.{RecentView};

    ghost Value = { RecentView };

    ghost use Rattle.xfs_journal.specs.Recents.{front_of, IsRecent};

    ghost view = { λ r. record {
      all = front_of r.base r.before ++ r.records.items;
      base = r.base;
      room = vec_capacity r.records - vec_len r.records;
    } };

    ghost invariant = { λ r. IsRecent r.before r.records.items r.base r.issues };

    ghost size = { λ v. v.base };

    ghost use Rattle.std.proofs.Common.{arith};

    ghost size_decreases = { λ a h. Prim.grind (arith) };
}

impl Recent {
    // The empty list.
    pub(crate) fn new(alloc: Global) -> Recent
        ensures { (result.all ≡ []) × (result.base ≡ 0) }
    {
        Recent {
            records: Vec::new(alloc),
            before: Past::Nothing,
            base: 0,
            issues: 0,
        }
    }

    // The records that are in memory.
    pub(crate) fn records(&self) -> &[Rec]
        ensures { result.now ≡ drop self.now.base self.now.all }
    {
        &self.records
    }

    pub(crate) fn base(&self) -> u64
        ensures base { result ≡ self.now.base }
        ensures within { self.now.base ≤ length self.now.all }
        ensures few { length self.now.all < 2 ^ 64 }
    {
        self.base
    }

    // How many nonces were issued in front of the base.
    pub(crate) fn issues(&self) -> u64
        ensures { result ≡ issues_in (take self.now.base self.now.all) }
    {
        self.issues
    }

    // How many records the list has.
    pub(crate) fn len(&self) -> u64
        ensures { result ≡ length self.now.all }
    {
        self.base + self.records.len() as u64
    }

    // Room for so many more records.
    pub(crate) fn reserve(&mut self, records: usize) -> Result<(), Memory>
        ensures all { self.new.all ≡ self.old.all }
        ensures base { self.new.base ≡ self.old.base }
        ensures more { self.old.room ≤ self.new.room }
        ensures room { OnOk result (records ≤ self.new.room) }
        ensures full { OnErr result (self.old.room < records) }
    {
        self.records.reserve(records)?;
        Ok(())
    }

    // One more record, where there is room.
    pub(crate) fn push(&mut self, rec: Rec)
        requires fits { FitsOneMore self.old }
        ensures all { self.new.all ≡ self.old.all ++ rec ∷ [] }
        ensures base { self.new.base ≡ self.old.base }
        ensures room { self.new.room + 1 ≡ self.old.room }
    {
        self.records.push_reserved(rec);
    }

    // One more record, as a file is read.
    pub(crate) fn take_in(&mut self, rec: Rec, keep: Keep) -> Result<(), Memory>
        requires few { length self.old.all + 1 < 2 ^ 64 }
        requires held { IsHeld keep self.old }
        ensures all { OnOk result (self.new.all ≡ self.old.all ++ rec ∷ []) }
        ensures held { OnOk result (IsHeld keep self.new) }
    {
        self.reserve(1)?;
        match keep {
            Keep::SinceBoot => self.begin_with(rec),
            Keep::Behind(count) => self.pass_by(rec, count),
        }
        Ok(())
    }

    // One more record: where it is a boot record, memory has it alone then.
    fn begin_with(&mut self, rec: Rec)
        requires fits { FitsOneMore self.old }
        requires held { IsHeld SinceBoot self.old }
        ensures all { self.new.all ≡ self.old.all ++ rec ∷ [] }
        ensures held { IsHeld SinceBoot self.new }
    {
        let begins = is_boot(&rec);
        let before = self.records.len();
        self.push(rec);
        if begins {
            self.let_go(before);
        }
    }

    // One more record: memory has none of the first ones.
    fn pass_by(&mut self, rec: Rec, count: u64)
        requires fits { FitsOneMore self.old }
        requires held { IsHeld (Behind count) self.old }
        ensures all { self.new.all ≡ self.old.all ++ rec ∷ [] }
        ensures held { IsHeld (Behind count) self.new }
    {
        self.push(rec);
        if self.base < count {
            self.let_go(1);
        }
    }

    // Lets go of what stands in front of the last boot record. It takes no memory.
    pub(crate) fn rebase(&mut self)
        requires led { self.old.base ≤ base_of self.old.all }
        ensures all { self.new.all ≡ self.old.all }
        ensures base { self.new.base ≡ base_of self.old.all }
        ensures room { self.old.room ≤ self.new.room }
    {
        let at = last_boot(&self.records);
        self.let_go(at);
    }

    // Lets go of so many of the records that are in memory. It takes no memory.
    fn let_go(&mut self, count: usize)
        requires within { self.old.base + count ≤ length self.old.all }
        ensures all { self.new.all ≡ self.old.all }
        ensures base { self.new.base ≡ self.old.base + count }
        ensures room { self.old.room ≤ self.new.room }
    {
        if count > 0 {
            let was = Snapshot::of(self);
            self.before = Past::Was(was);
            let (front, _) = self.records.split_at(count);
            self.issues += count_issues(front);
            take_away(&mut self.records, count);
            self.base += count as u64;
        }
    }

    // The records in memory are those that another reading of the list has behind the same base.
    pub(crate) fn take_from(&mut self, found: Recent)
        requires base { found.base ≡ self.old.base }
        ensures all { self.new.all ≡ take self.old.base self.old.all ++ drop self.old.base found.all }
        ensures base { self.new.base ≡ self.old.base }
        ensures room { self.new.room ≡ found.room }
    {
        let Recent {
            records,
            before: _,
            base: _,
            issues: _,
        } = found;
        self.records = records;
    }
}

/// How many nonces were issued in these records.
pub fn count_issues(records: &[Rec]) -> u64
    ensures counted { result ≡ issues_in records.now }
    ensures few { result ≤ length records.now }
{
    let mut issues = 0;
    for i in 0..records.len() {
        if matches!(records[i], Rec::Issue { .. }) {
            issues += 1;
        }
    }
    issues
}

// The place of the last boot record, 0 where there is none.
fn last_boot(records: &[Rec]) -> usize
    ensures at { result ≡ base_of records.now }
    ensures within { result ≤ length records.now }
{
    let mut at = 0;
    for (i, rec) in records.iter().enumerate() {
        if is_boot(rec) {
            at = i;
        }
    }
    at
}

fn is_boot(rec: &Rec) -> bool
    ensures { result ≡ is_boot rec.now }
{
    matches!(rec, Rec::Boot { .. } | Rec::Start { .. })
}

// Takes so many records away.
fn take_away(records: &mut Vec<Rec>, count: usize)
    requires { count ≤ length records.old.items }
    ensures records { records.new.items ≡ drop count records.old.items }
    ensures capacity { vec_capacity records.new ≡ vec_capacity records.old }
{
    records.rotate_left(count);
    let left = records.len() - count;
    records.truncate(left);
}
