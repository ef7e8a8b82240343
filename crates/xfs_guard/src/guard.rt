ghost use Rattle.std.specs.Prelude.{◌≡◌, ◌≢◌, ◌↔◌, ◌<◌, ◌≤◌, ◌^◌, drop, length, false, true, OnOk, OnErr, IfOk, IfErr, IsTrue, Ok, Some, None, Err};
ghost use Rattle.std.specs.Option.{option_or};
ghost use Rattle.xfs_base.specs.Causes.{Rose};
ghost use Rattle.xfs_journal.specs.declared.record.Rec.TheVariants.{Issue, Clear, Expire, Order};
ghost use Rattle.xfs_journal.specs.Journal.{base_of, next_issue};
ghost use Rattle.xfs_guard.specs.declared.open.Open.TheVariants.{No};
ghost use Rattle.xfs_guard.specs.Calls.{UsesMechanism, WritesRecord};
ghost use Rattle.xfs_guard.specs.Entries.{entry_of};
ghost use Rattle.xfs_guard.specs.Nonce.{EndsNonce, live_in, live_nonce};
ghost use Rattle.xfs_guard.specs.Upheld.{IsUpheld};
ghost use Rattle.xfs_guard.specs.View.{unbound_with, with_order};
ghost use Rattle.xfs_guard.specs.NextNonce.{next_record, next_text};
ghost use Rattle.xfs_guard.specs.Word.{issue_word};
ghost use Rattle.xfs_guard.specs.Fits.{fit_of, unfit};
ghost use Rattle.xfs_guard.specs.CrashOutcomes.{MayMove};
ghost use Rattle.xfs_guard.specs.Keeps.{Keeps, NoEntry};
ghost use Rattle.xfs_guard.specs.LedgerView.{IsWriteFault};
ghost use Rattle.xfs_guard.specs.Lives.{WasNeverAnswered};
ghost use Rattle.xfs_guard.specs.Outcomes.{BootsGuard, HandsBack, RefusesBoot};
ghost use Rattle.xfs_guard.specs.Recorded.{IsRecorded};
ghost use Rattle.xfs_guard.specs.Segment.{IsTellable};
ghost use Rattle.xfs_guard.specs.Stored.{EachLeft};
ghost use Rattle.xfs_guard.specs.Orders.{IsWritten, IsActed, Acts, Settles, Unsettles, kind_unacted};
ghost use Rattle.xfs_guard.specs.Refusals.{Answers, IsAdmitted, IsAsk, order_refusal, nothing_refusal, notes_of, asked_kind, asked_counts};
ghost use Rattle.xfs_guard.specs.declared.ask.Ask.TheVariants.{Stack as AskStack, Present as AskPresent};
ghost use Rattle.xfs_disk.specs.Moments.{EachImage};
ghost use Rattle.xfs_journal.specs.Image.{StandsFor};

use crate::budget::over_budget;
use crate::fit::{LEAST_BYTES, LEAST_RECORDS};
use crate::ledger::{Ledger, RefusedLedger};
use crate::words::Words;
use crate::{Ask, BootFail, BootFault, Deny, Fit, Nonce, Open};
use std::alloc::Global;
use std::marker::Model;
use xfs_base::{Counts, Kind, Memory, Places, UnitTable};
use xfs_disk::Disk;
use xfs_journal::{Limits, Rec, Survey};
use xfs_mech::{Mechanism, Order as MechOrder, Outcome};
use xfs_token::TokenKey;

/// The guard: it alone hands orders to the mechanism. Each call appends at most one record or makes
/// at most one call of the mechanism that adds an entry, never both; `restore` alone reads the disk again.
///
/// Where the disk tells its bytes, a crash at any moment of a call leaves a list of records that agrees
/// with what the mechanism did (`any_moment`; `inside` for a call of the mechanism), and once a call
/// that writes answered `Ok` it leaves the list with the record (`kept`).
#[derive(Drop)]
pub struct Guard<M: Mechanism, D: Disk> {
    pub(crate) alloc: Global,
    pub(crate) mech: M,
    pub(crate) ledger: Ledger<D>,
    pub(crate) key: TokenKey,
    words: Words,
    pub(crate) open_order: Open,
}

impl<M: Mechanism, D: Disk> Model for Guard<M, D> {
    ghost use Rattle.std.specs.Prelude.{is_some};
    ghost use Rattle.xfs_guard.specs.View.{GuardView, over};
    ghost use Rattle.xfs_disk.specs.Moments.{EachImage};
    ghost use Rattle.xfs_journal.specs.Held.{StandsForSome};
    ghost use Rattle.xfs_journal.specs.JournalView.{IsPossible};
    ghost use Rattle.xfs_guard.specs.Kept.{IsKept};

    ghost Value = { GuardView D };

    ghost view = { λ g. record {
      state = over g.key g.words g.open_order (M.motions g.mech) (M.places g.mech) (M.faults g.mech) g.ledger (is_some (D.held g.ledger.disk));
      disk = g.ledger.disk;
    } };

    ghost invariant = { λ g. IsKept (over g.key g.words g.open_order (M.motions g.mech) (M.places g.mech) (M.faults g.mech) g.ledger (is_some (D.held g.ledger.disk)))
        (M.room g.mech) g.ledger.room (M.units g.mech)
        × EachImage D.Disk g.ledger.disk (StandsForSome (IsPossible g.ledger.records g.ledger.in_doubt)) };
}

impl<M: Mechanism, D: Disk> Guard<M, D> {
    /// A guard over this mechanism and the journal of this disk, which gets a boot record. The key is that of
    /// the tokens' HMAC, the seed that of the nonces. A refused boot hands both back; but for `Disk` it has
    /// written nothing, except that a file of at most 9 bytes may be an empty journal, and one of version 1 of version 2.
    pub fn boot(
        alloc: Global,
        mech: M,
        disk: D,
        key: [u8; 32],
        seed: [u8; 32],
        units: UnitTable,
        limits: Limits,
    ) -> Result<Guard<M, D>, BootFail<M, D>>
        requires units { M.units mech ≡ units }
        requires recorded { EachLeft D.Disk disk (IsRecorded key units (M.motions mech)) }
        ensures ok { IfOk result (BootsGuard D.Disk (entry_of M.Mechanism D.Disk mech disk key seed units limits) disk) }
        ensures mech { IfErr result (λ f. f.mech ≡ mech) }
        ensures refuses { IfErr result (λ f. RefusesBoot D.Disk (entry_of M.Mechanism D.Disk mech disk key seed units limits) disk f.why f.disk) }
    {
        let places = mech.survey();
        // The memory of the boot record is had before the journal is read.
        let Ok(survey) = Survey::new(alloc, places) else {
            return Err(BootFail {
                why: BootFault::Memory,
                mech,
                disk,
            });
        };
        match Ledger::boot(alloc, disk, limits, units, survey) {
            Ok(ledger) => Ok(Guard {
                alloc,
                mech,
                ledger,
                key: TokenKey::new(key),
                words: Words::new(seed),
                open_order: Open::No,
            }),
            Err(RefusedLedger { why, disk }) => Err(BootFail { why, mech, disk }),
        }
    }

    /// The mechanism and the disk. Each image of the disk is that of a list of records that agrees with
    /// what the mechanism did: the kept one, or that one with the record in doubt.
    pub fn end(self) -> (M, D)
        ensures { HandsBack M.Mechanism D.Disk self result.0 result.1 }
    {
        let Guard {
            alloc: _,
            mech,
            ledger,
            key: _,
            words: _,
            open_order: _,
        } = self;
        (mech, ledger.end())
    }

    /// Whether the journal takes more records. Its clause `upheld` tells what stands between calls.
    pub fn fit(&self) -> Fit
        ensures fit { result ≡ fit_of self.now.state }
        ensures upheld { IsUpheld D.Disk self.now }
    {
        if self.ledger.shut() {
            return Fit::Shut;
        }
        let left = self.ledger.left();
        if self.ledger.boot_missing() || left.records < LEAST_RECORDS || left.bytes < LEAST_BYTES {
            return Fit::Full;
        }
        Fit::Ready
    }

    /// What each call that writes is refused for first: `Shut` or `Full`, by the fit.
    pub fn unfit(&self) -> Option<Deny>
        ensures first { result ≡ unfit self.now.state }
        ensures upheld { IsUpheld D.Disk self.now }
    {
        match self.fit() {
            Fit::Ready => None,
            Fit::Shut => Some(Deny::Shut),
            Fit::Full => Some(Deny::Full),
        }
    }

    /// The live nonce. None where none was issued since the last boot record, or it was cleared, or a restore found no
    /// room for its boot record.
    pub fn live(&self) -> Option<Nonce>
        ensures { result ≡ live_in self.now.state.boot_missing self.now.state.records }
    {
        self.ledger.live()
    }

    /// The nonce that the next issue gives.
    pub fn next_nonce(&self) -> Result<Nonce, Memory>
        requires { unfit self.now.state ≡ None }
        ensures number { IfOk result (λ n. n.number ≡ next_issue self.now.state.records) }
        ensures text { IfOk result (λ n. n.text ≡ next_text self.now.state) }
    {
        let number = self.ledger.next_issue();
        Ok(Nonce::of(number, self.words.at(number)))
    }

    /// Whether an order is open. Its clause `upheld` tells what stands between calls.
    pub fn ordering(&self) -> bool
        ensures open { IsTrue result ↔ (self.now.state.open_order ≢ No) }
        ensures upheld { IsUpheld D.Disk self.now }
    {
        // Its clause tells what the images stand for.
        let _told = self.ledger.shut();
        !matches!(self.open_order, Open::No)
    }

    /// The kind of the order that is open and not yet acted.
    pub fn unacted(&self) -> Option<Kind>
        ensures { result ≡ kind_unacted self.now.state.open_order }
    {
        match self.open_order {
            Open::Written { kind, .. } => Some(kind),
            _ => None,
        }
    }

    /// The key of the tokens, prepared.
    pub fn signer(&self) -> &TokenKey
        ensures { result.now ≡ self.now.state.key }
    {
        &self.key
    }

    /// The kinds of notes of the units.
    pub fn units(&self) -> &UnitTable
        ensures { result.now ≡ self.now.state.units }
    {
        self.ledger.units()
    }

    /// Where the notes lie, also while an order is open.
    pub fn places(&self) -> Places
        ensures { result ≡ self.now.state.places }
    {
        self.mech.survey()
    }

    /// The places of the last boot record that this guard appended.
    pub fn booted(&self) -> &Places
        ensures { result.now ≡ self.now.state.booted }
    {
        self.ledger.booted()
    }

    /// How many notes of each unit were loaded since that boot record: over the six places the unit has so many more.
    pub fn loaded(&self) -> &Counts
        ensures { result.now ≡ self.now.state.loaded }
    {
        self.ledger.loaded()
    }

    /// The journal's records that are in memory: those behind its base. The number of the first is one more than the base.
    /// What was presented for the last nonce among them can be told in a token.
    pub fn records(&self) -> &[Rec]
        ensures records { result.now ≡ drop self.now.state.base self.now.state.records }
        ensures tellable { IsTellable self.now.state.units result.now }
    {
        self.ledger.records()
    }

    /// How many records of the journal memory doesn't have: those in front of this guard's own boot record.
    pub fn base(&self) -> u64
        ensures base { result ≡ self.now.state.base }
        ensures led { self.now.state.base ≤ base_of self.now.state.records }
        ensures within { self.now.state.base ≤ length self.now.state.records }
        ensures few { length self.now.state.records < 2 ^ 62 }
    {
        self.ledger.base()
    }

    /// Issues the next nonce; its word is the seed's. A nonce that was live is so no longer. After `Disk`
    /// the journal is shut.
    pub fn issue(&mut self) -> Result<Nonce, Deny>
        requires { self.old.state.open_order ≡ No }
        ensures refused { Answers result (unfit self.old.state) }
        ensures number { IfOk result (λ n. n.number ≡ next_issue self.old.state.records) }
        ensures live { IfOk result (λ n. live_nonce self.new.state.records ≡ Some n) }
        ensures ok { IfOk result (λ n. self.new.state ≡ unbound_with (Issue n.number (issue_word self.old.state.seed n.number)) self.old.state) }
        ensures never_twice { IfOk result (λ n. self.old.state.disk_told ≡ true → WasNeverAnswered self.old.state.records n.number) }
        ensures writes { WritesRecord D.Disk (next_record self.old.state) result self.old self.new }
    {
        if let Some(deny) = self.unfit() {
            return Err(deny);
        }
        let number = self.ledger.next_issue();
        let word = self.words.at(number);
        let nonce = Nonce::of(number, word);
        self.ledger.issue(nonce, word)?;
        self.words.turn_to(number.saturating_add(1));
        Ok(nonce)
    }

    /// Clears the live nonce. False, and nothing is written, where none is live. After `Disk` the
    /// journal is shut.
    pub fn clear(&mut self) -> Result<bool, Deny>
        requires { self.old.state.open_order ≡ No }
        ensures refused { Answers result (unfit self.old.state) }
        ensures dead { IfOk result (λ b. IsTrue b ↔ (live_nonce self.old.state.records ≢ None)) }
        ensures cleared { result ≡ Ok true → self.new.state ≡ unbound_with Clear self.old.state }
        ensures unwritten { result ≡ Err Deny.Disk → live_nonce self.old.state.records ≢ None }
        ensures idle { result ≡ Ok false → self.new ≡ self.old }
        ensures writes { WritesRecord D.Disk Clear result self.old self.new }
    {
        if let Some(deny) = self.unfit() {
            return Err(deny);
        }
        if self.ledger.live().is_none() {
            return Ok(false);
        }
        self.end_nonce(Rec::Clear)?;
        Ok(true)
    }

    /// EndsNonce the live nonce, whose life is over. After `Disk` the journal is shut.
    pub fn expire(&mut self) -> Result<(), Deny>
        requires none { self.old.state.open_order ≡ No }
        requires live { live_in self.old.state.boot_missing self.old.state.records ≢ None }
        ensures refused { Answers result (unfit self.old.state) }
        ensures expired { OnOk result (self.new.state ≡ unbound_with Expire self.old.state) }
        ensures dead { OnOk result (live_nonce self.new.state.records ≡ None) }
        ensures writes { WritesRecord D.Disk Expire result self.old self.new }
    {
        if let Some(deny) = self.unfit() {
            return Err(deny);
        }
        self.end_nonce(Rec::Expire)
    }

    // Writes the record that ends the live nonce.
    fn end_nonce(&mut self, rec: Rec) -> Result<(), Deny>
        requires none { self.old.state.open_order ≡ No }
        requires fit { unfit self.old.state ≡ None }
        requires ends { EndsNonce rec }
        ensures ok { OnOk result (self.new.state ≡ unbound_with rec self.old.state) }
        ensures dead { OnOk result (live_nonce self.new.state.records ≡ None) }
        ensures err { IfErr result IsWriteFault }
        ensures writes { WritesRecord D.Disk rec result self.old self.new }
    {
        self.ledger.end_nonce(rec)?;
        Ok(())
    }

    /// Writes an order, with room for all that it still adds. It moves nothing. After `Disk` the journal
    /// is shut.
    pub fn order(&mut self, ask: Ask) -> Result<(), Deny>
        requires none { self.old.state.open_order ≡ No }
        requires asked { IsAsk self.old.state ask }
        ensures refused { Answers result (option_or (unfit self.old.state) (order_refusal self.old.state ask)) }
        ensures ok { OnOk result (self.new.state ≡ with_order (asked_kind ask) (asked_counts self.old.state ask) self.old.state) }
        ensures writes { WritesRecord D.Disk (Order (asked_kind ask) (asked_counts self.old.state ask)) result self.old self.new }
    {
        if let Some(deny) = self.unfit() {
            return Err(deny);
        }
        let (kind, counts) = self.order_of(ask)?;
        self.write_order(kind, counts)
    }

    // Writes an order that nothing refuses.
    fn write_order(&mut self, kind: Kind, counts: Counts) -> Result<(), Deny>
        requires none { self.old.state.open_order ≡ No }
        requires fit { unfit self.old.state ≡ None }
        requires admitted { (ask : _) × IsAdmitted self.old.state ask (kind, counts) }
        ensures err { IfErr result IsWriteFault }
        ensures ok { OnOk result (self.new.state ≡ with_order kind counts self.old.state) }
        ensures writes { WritesRecord D.Disk (Order kind counts) result self.old self.new }
    {
        self.mech.ready()?;
        self.ledger.reserve_two()?;
        self.ledger.order(kind, counts)?;
        self.open_order = Open::Written { kind, counts };
        Ok(())
    }

    // The kind and the counts of an order, where nothing refuses it.
    fn order_of(&self, ask: Ask) -> Result<(Kind, Counts), Deny>
        requires asked { IsAsk self.now.state ask }
        requires fit { unfit self.now.state ≡ None }
        ensures ok { IfOk result (λ r. IsAdmitted self.now.state ask r) }
        ensures err { IfErr result (λ e. (e ≢ Deny.Memory) × (e ≢ Deny.Disk) × (order_refusal self.now.state ask ≡ Some e)) }
    {
        match ask {
            Ask::Stack { issue, unit, count } => self.stack_order(issue, unit, count),
            Ask::Present => self.present_order(),
            Ask::Reject => whole_of(Kind::Reject, self.mech.survey().transport),
            Ask::Retract => whole_of(Kind::Retract, self.mech.survey().outlet),
        }
    }

    fn stack_order(&self, issue: u64, unit: u8, count: u32) -> Result<(Kind, Counts), Deny>
        requires asked { IsAsk self.now.state (AskStack issue unit count) }
        requires fit { unfit self.now.state ≡ None }
        ensures ok { IfOk result (λ r. IsAdmitted self.now.state (AskStack issue unit count) r) }
        ensures err { IfErr result (λ e. (e ≢ Deny.Memory) × (e ≢ Deny.Disk) × (order_refusal self.now.state (AskStack issue unit count) ≡ Some e)) }
    {
        let since = self.ledger.mark();
        let Some(nonce) = self.ledger.live() else {
            return Err(Deny::NoNonce { since });
        };
        if nonce.number != issue {
            return Err(Deny::WrongNonce { since });
        }
        let Some(amounts) = self.ledger.amounts() else {
            return Err(Deny::Unbound { since });
        };
        let places = self.mech.survey();
        let counts = notes_of(self.ledger.units(), unit, count);
        if let Some(deny) = over_budget(&self.ledger, &places.transport, amounts, &counts) {
            return Err(deny);
        }
        if places.units.0[usize::from(unit) - 1] < count {
            return Err(Deny::Short { unit });
        }
        Ok((Kind::Stack, counts))
    }

    fn present_order(&self) -> Result<(Kind, Counts), Deny>
        requires { unfit self.now.state ≡ None }
        ensures ok { IfOk result (λ r. IsAdmitted self.now.state AskPresent r) }
        ensures err { IfErr result (λ e. (e ≢ Deny.Memory) × (e ≢ Deny.Disk) × (order_refusal self.now.state AskPresent ≡ Some e)) }
    {
        let since = self.ledger.mark();
        if self.ledger.live().is_none() {
            return Err(Deny::NoNonce { since });
        }
        if self.ledger.amounts().is_none() {
            return Err(Deny::Unbound { since });
        }
        let places = self.mech.survey();
        if places.transport.notes() == 0 {
            return Err(Deny::Nothing);
        }
        let notes = places.outlet.notes();
        if notes != 0 {
            return Err(Deny::OutletFull { notes });
        }
        Ok((Kind::Present, places.transport))
    }

    /// Carries out the order that is written. It takes no memory.
    pub fn act(&mut self) -> Outcome
        requires { IsWritten self.old.state.open_order }
        ensures acted { Acts self.old.state self.new.state result.moved result.diverted result.failed }
        ensures uses { UsesMechanism D.Disk (MayMove self.old.state) result.failed self.old self.new }
    {
        let Open::Written { kind, counts } = self.open_order else {
            unreachable!()
        };
        let number = self.ledger.newest();
        let outcome = self.mech.execute(MechOrder::new(number, kind, counts));
        self.open_order = Open::Acted {
            kind,
            moved: outcome.moved,
            diverted: outcome.diverted,
            failed: outcome.failed,
        };
        outcome
    }

    /// Writes down what the order did. It takes no memory. Its one refusal is `Disk`: then the journal
    /// is shut, and no order is open.
    pub fn settle(&mut self) -> Result<(), Deny>
        requires { IsActed self.old.state.open_order }
        ensures settled { OnOk result (Settles self.old.state self.new.state) }
        ensures err { IfErr result (λ e. e ≡ Deny.Disk) }
        ensures disk { OnErr result (Unsettles self.old.state self.new.state) }
        ensures cause { OnErr result (Rose (D.faults self.old.disk) (D.faults self.new.disk)) }
        ensures keeps { Keeps D.Disk NoEntry self.old self.new }
        ensures kept { OnOk result (EachImage D.Disk self.new.disk (λ c. StandsFor c self.new.state.records)) }
    {
        let Open::Acted {
            kind,
            moved,
            diverted,
            failed: _,
        } = self.open_order
        else {
            unreachable!()
        };
        self.open_order = Open::No;
        self.ledger.done(kind, moved, diverted)?;
        Ok(())
    }
}

// All the notes of a place, where there are some.
fn whole_of(kind: Kind, counts: Counts) -> Result<(Kind, Counts), Deny>
    ensures ok { IfOk result (λ r. (nothing_refusal counts ≡ None) × (r.0 ≡ kind) × (r.1 ≡ counts)) }
    ensures err { IfErr result (λ e. (e ≢ Deny.Memory) × (e ≢ Deny.Disk) × (nothing_refusal counts ≡ Some e)) }
{
    if counts.notes() == 0 {
        return Err(Deny::Nothing);
    }
    Ok((kind, counts))
}

// So many notes of one unit.
fn notes_of(units: &UnitTable, unit: u8, count: u32) -> Counts
    requires low { 1 ≤ unit }
    requires high { unit ≤ length units.now }
    ensures notes { result ≡ notes_of unit count }
    ensures within { unit ≤ 8 }
{
    prove!(unit <= units.len());
    let mut counts = [0; 8];
    counts[usize::from(unit) - 1] = count;
    Counts(counts)
}
