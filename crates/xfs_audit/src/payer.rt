//! Motions that put notes out, read along the records.

ghost use Rattle.std.specs.Prelude.{◌≡◌, ℕ, ◌+◌, ◌<◌, ◌≤◌, List, [], length, IfOk, IfSome, IsSome, Some, None};
ghost use Rattle.xfs_journal.specs.declared.record.Rec.{Rec as Record};
ghost use Rattle.std.specs.Bool.{OnTrue, OnFalse};
ghost use Rattle.xfs_base.specs.declared.money.NoteKind.{NoteKind as NotesOf};
ghost use Rattle.xfs_audit.specs.Claims.{IsClaimOf, IsUnder};
ghost use Rattle.xfs_audit.specs.Paying.{IsPayerOf, IsPaying, IsPutOut, SpendsThere, Pays, IsUnpaid, Reads, Breaks, StaysPaid, KeepsUnder};
ghost use Rattle.xfs_audit.specs.Told.{low_after};
ghost use Rattle.xfs_mech.specs.Motions.{NumberIs};

use crate::claim::Claim;
use crate::reader::Reader;
use std::alloc::Global;
use xfs_base::{Counts, Kind, Memory, UnitTable};
use xfs_journal::Rec;
use xfs_mech::Motion;
use xfs_token::TokenKey;

/// How far the records were read, and the claim of the issue that lives there, once notes were put
/// out since it.
#[derive(Drop)]
pub struct Payer {
    pub read: Reader,
    pub claim: Option<Claim>,
}

impl Payer {
    pub fn new() -> Payer
        ensures paying { (key : List ℕ) (units : List NotesOf) (records : List Record) → IsPaying key units records [] result }
        ensures start { result.read.count ≡ 0 }
        ensures small { IfSome result.claim IsUnder }
    {
        Payer {
            read: Reader::new(),
            claim: None,
        }
    }

    /// Reads one more motion. False where it put notes out that are not paid for.
    pub fn read(
        &mut self,
        alloc: Global,
        key: &TokenKey,
        units: &UnitTable,
        records: &[Rec],
        entry: &Motion,
    ) -> Result<bool, Memory>
        requires payer { IsPayerOf records.now self.old }
        requires low { NumberIs (λ n. self.old.read.count < n) entry.now }
        requires high { NumberIs (λ n. n ≤ length records.now) entry.now }
        ensures read { IfOk result (λ paid. OnTrue paid ((low : ℕ) → self.old.read.count ≤ low → self.new.read.count ≤ low_after low entry.now)) }
        ensures small { IfOk result (λ paid. OnTrue paid (IfSome self.new.claim IsUnder)) }
        ensures paid { IfOk result (λ paid. OnTrue paid (Reads key.now units.now records.now entry.now self.old self.new)) }
        ensures unpaid { IfOk result (λ paid. OnFalse paid (Breaks key.now units.now records.now entry.now self.old)) }
    {
        match order_put_out(entry) {
            Some((number, moved)) => self.pay(alloc, key, units, records, number as usize, &moved),
            None => Ok(true),
        }
    }

    // Notes were put out on the order with this number. False where they are not paid for.
    fn pay(
        &mut self,
        alloc: Global,
        key: &TokenKey,
        units: &UnitTable,
        records: &[Rec],
        number: usize,
        moved: &Counts,
    ) -> Result<bool, Memory>
        requires payer { IsPayerOf records.now self.old }
        requires low { self.old.read.count < number }
        requires high { number ≤ length records.now }
        ensures read { IfOk result (λ paid. OnTrue paid (self.new.read.count + 1 ≡ number)) }
        ensures small { IfOk result (λ paid. OnTrue paid (IfSome self.new.claim IsUnder)) }
        ensures paid { IfOk result (λ paid. OnTrue paid (Pays key.now units.now records.now number moved.now self.old self.new)) }
        ensures unpaid { IfOk result (λ paid. OnFalse paid (IsUnpaid key.now units.now records.now number moved.now self.old)) }
    {
        self.turn(records, number);
        let Some(issue) = self.read.live else {
            return Ok(false);
        };
        if !self.open(alloc, key, records, issue)? {
            return Ok(false);
        }
        Ok(self.spend(units, moved))
    }

    // Reads the records before the one with this number. A claim ends with its issue.
    fn turn(&mut self, records: &[Rec], number: usize)
        requires payer { IsPayerOf records.now self.old }
        requires low { self.old.read.count < number }
        requires high { number ≤ length records.now }
        ensures payer { IsPayerOf records.now self.new }
        ensures count { self.new.read.count + 1 ≡ number }
        ensures same { StaysPaid records.now self.old self.new }
    {
        let before = self.read.live;
        self.read.advance(records, number - 1);
        if self.read.live != before {
            self.claim = None;
        }
    }

    // Makes the claim of the live issue, where there is none yet. False where it has no token.
    fn open(
        &mut self,
        alloc: Global,
        key: &TokenKey,
        records: &[Rec],
        issue: usize,
    ) -> Result<bool, Memory>
        requires live { self.old.read.live ≡ Some issue }
        requires small { IfSome self.old.claim IsUnder }
        ensures read { self.new.read ≡ self.old.read }
        ensures small { IfOk result (λ made. OnTrue made (IfSome self.new.claim IsUnder)) }
        ensures claim { IfOk result (λ made. OnTrue made (IsSome self.new.claim)) }
        ensures same { IfOk result (λ made. OnTrue made (KeepsUnder key.now records.now self.old self.new)) }
        ensures none { IfOk result (λ made. OnFalse made (IsClaimOf key.now records.now issue None)) }
    {
        if self.claim.is_some() {
            return Ok(true);
        }
        match Claim::of(alloc, key, records, issue)? {
            Some(claim) => {
                self.claim = Some(claim);
                Ok(true)
            }
            None => Ok(false),
        }
    }

    fn spend(&mut self, units: &UnitTable, moved: &Counts) -> bool
        requires small { IfSome self.old.claim IsUnder }
        requires claim { IsSome self.old.claim }
        ensures read { self.new.read ≡ self.old.read }
        ensures spent { SpendsThere units.now moved.now self.old.claim self.new.claim result }
    {
        match &mut self.claim {
            Some(claim) => claim.spend(units, moved),
            None => unreachable!(),
        }
    }
}

// The order's number and the notes, where an entry put notes out.
fn order_put_out(entry: &Motion) -> Option<(u64, Counts)>
    ensures { IsPutOut entry.now result }
{
    match entry {
        Motion::Moved {
            number,
            kind: Kind::Present,
            moved,
            ..
        } => Some((*number, *moved)),
        _ => None,
    }
}
