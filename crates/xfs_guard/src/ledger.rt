//! The records of the journal, with what is read of them kept beside: no call but `boot` and `restore` goes through them.

ghost use Rattle.std.specs.Prelude.{◌≡◌, ◌≢◌, ℕ, List, ◌+◌, ◌-◌, ◌<◌, ◌≤◌, ◌^◌, false, true, ◌∷◌, ◌++◌, [], length, drop, take, OnErr, IfErr, IfOk, OnOk, Some, None, Err};
ghost use Rattle.std.specs.Option.{option_copied, option_map};
ghost use Rattle.xfs_base.specs.Counts.{at};
ghost use Rattle.xfs_base.specs.declared.counts.Counts.{Counts};
ghost use Rattle.xfs_journal.specs.Held.{StandsForSome};
ghost use Rattle.xfs_journal.specs.Image.{HasUnit, size};
ghost use Rattle.xfs_journal.specs.Journal.{base_of, boot_of, issues_in, record_at, live_of, last_mark, next_issue, nonce_text, with_boot};
ghost use Rattle.xfs_journal.specs.JournalView.{exceeds, refusal, HasPossible, StandsForEither, IsPossible};
ghost use Rattle.xfs_journal.specs.Outcomes.{DiskGoesOn, FailsAt, IsAppended, IsUnwritten, KeepsJournal, WritesAtMost};
ghost use Rattle.xfs_journal.specs.declared.record.Rec.TheVariants.{Issue, Bind, Order, Done, Load};
ghost use Rattle.xfs_guard.specs.declared.fail.BootFault.TheVariants.{NotJournal, Disk as BootDisk, Full as BootFull, Memory as BootMemory};
ghost use Rattle.xfs_guard.specs.Nonce.{EndsNonce, live_in};
ghost use Rattle.xfs_guard.specs.Refusals.{bound_token, bound_number};
ghost use Rattle.xfs_guard.specs.Presented.{presented_in};
ghost use Rattle.xfs_guard.specs.LedgerBooting.{BootsLedger, IsBootedNow, StaysSmall, RefusesLedger, RefusesReread, WritesLedger, IsOldOrReread};
ghost use Rattle.xfs_guard.specs.LedgerView.{IsOpenLedger, IsWriteFault, IsSame, TellsPresented, write_refusal};
ghost use Rattle.xfs_guard.specs.Balance.{with_notes};
ghost use Rattle.xfs_guard.specs.Booting.{HadRoomThen, base_then};
ghost use Rattle.xfs_guard.specs.Ledger.{IsLive, IsDoubted};
ghost use Rattle.xfs_guard.specs.Pays.{FitsSums, GrowBy, GrowsSums, IsSumOf, StayWithin};
ghost use Rattle.xfs_guard.specs.Segment.{IsTellable};
ghost use Rattle.xfs_disk.specs.Moments.{EachImage, EachMoment};

use crate::bound::{Bound, Live};
use crate::mounting::mount;
use crate::{BootFault, Deny, Nonce};
use std::alloc::Global;
use std::marker::Model;
use xfs_base::{Counts, Currency, Kind, Memory, Places, UnitTable};
use xfs_disk::Disk;
use xfs_journal::{AppendFault, Journal, Limits, Rec, Survey, Text, count_issues};
use xfs_token::Amounts;

/// The journal, and beside it what of its records would else be looked for at each call: the number of issues,
/// the last mark, the live nonce, and the bound token with its amounts.
#[derive(Drop)]
pub struct Ledger<D: Disk> {
    journal: Journal<D>,
    units: UnitTable,
    issues: u64,
    mark: u64,
    live: Option<Live>,
    bound: Option<Bound>,
    // The places of the last boot record that was appended, and the notes that were loaded since.
    booted: Places,
    loaded: Counts,
    boot_missing: bool,
    // The nonce that may live where the record in doubt is an Issue.
    doubted: Option<Nonce>,
}

impl<D: Disk> Model for Ledger<D> {
    ghost use Rattle.xfs_guard.specs.LedgerView.{LedgerView};
    ghost use Rattle.xfs_guard.specs.Ledger.{KeepsLedger, amounts_kept};
    ghost use Rattle.xfs_guard.specs.Segment.{AreTellable};

    ghost Value = { LedgerView D };

    ghost view = { λ l. record {
      records = l.journal.records;
      base = l.journal.base;
      units = l.units;
      bound = amounts_kept l.bound;
      booted = l.booted;
      loaded = l.loaded;
      room = l.journal.room;
      limits = l.journal.limits;
      shut = l.journal.shut;
      boot_missing = l.boot_missing;
      in_doubt = l.journal.in_doubt;
      disk = l.journal.disk;
    } };

    ghost invariant = { λ l. KeepsLedger l.journal.records l.journal.base l.journal.in_doubt l.journal.shut l.boot_missing l.units l.issues l.mark l.live l.bound l.doubted
        × AreTellable l.units l.journal.base l.journal.records l.journal.in_doubt };
}

/// A refused boot, with the disk.
#[derive(Drop)]
pub struct RefusedLedger<D: Disk> {
    pub why: BootFault,
    pub disk: D,
}

impl<D: Disk> Ledger<D> {
    /// The journal of a disk, which gets a boot record with these places.
    pub fn boot(
        alloc: Global,
        disk: D,
        limits: Limits,
        units: UnitTable,
        places: Survey,
    ) -> Result<Ledger<D>, RefusedLedger<D>>
        ensures ok { IfOk result (BootsLedger D.Disk limits units places disk) }
        ensures err { IfErr result (λ f. RefusesLedger D.Disk limits places disk f.why f.disk) }
    {
        let mut journal = match mount(alloc, disk, limits) {
            Ok(journal) => journal,
            Err(refused) => return Err(refused),
        };
        let issues = issues_of(&journal);
        let booted = *places.places();
        match append_boot(&mut journal, issues, places, true) {
            Ok(mark) => Ok(Ledger {
                journal,
                units,
                issues,
                mark,
                live: None,
                bound: None,
                booted,
                loaded: Counts([0; 8]),
                boot_missing: false,
                doubted: None,
            }),
            Err(why) => Err(RefusedLedger {
                why,
                disk: journal.end(),
            }),
        }
    }

    /// The records of the journal that are in memory: those behind its base.
    pub fn records(&self) -> &[Rec]
        ensures records { result.now ≡ drop self.now.base self.now.records }
        ensures tellable { IsTellable self.now.units result.now }
    {
        self.journal.records()
    }

    /// How many records of the journal memory doesn't have.
    pub fn base(&self) -> u64
        ensures base { result ≡ self.now.base }
        ensures led { self.now.base ≤ base_of self.now.records }
        ensures within { self.now.base ≤ length self.now.records }
        ensures few { length self.now.records < 2 ^ 62 }
    {
        self.journal.base()
    }

    /// The number of the newest record.
    pub fn newest(&self) -> u64
        ensures number { result ≡ length self.now.records }
        ensures within { self.now.base ≤ result }
        ensures led { self.now.base ≤ base_of self.now.records }
    {
        self.base() + self.records().len() as u64
    }

    /// The journal's disk.
    pub fn end(self) -> D
        ensures disk { result ≡ self.disk }
        ensures stored { EachImage D.Disk result (HasPossible self.records self.in_doubt) }
    {
        let Ledger {
            journal,
            units: _,
            issues: _,
            mark: _,
            live: _,
            bound: _,
            booted: _,
            loaded: _,
            boot_missing: _,
            doubted: _,
        } = self;
        journal.end()
    }

    /// Whether the disk failed and the journal wasn't read again since.
    pub fn shut(&self) -> bool
        ensures shut { result ≡ self.now.shut }
        ensures possible { EachImage D.Disk self.now.disk (HasPossible self.now.records self.now.in_doubt) }
    {
        self.journal.shut()
    }

    /// Whether a restore found no room for its boot record since the last one was appended.
    pub fn boot_missing(&self) -> bool
        ensures { result ≡ self.now.boot_missing }
    {
        self.boot_missing
    }

    /// The table of the units.
    pub fn units(&self) -> &UnitTable
        ensures { result.now ≡ self.now.units }
    {
        &self.units
    }

    /// The number of the last mark.
    pub fn mark(&self) -> u64
        requires { IsOpenLedger self.now }
        ensures { result ≡ last_mark self.now.records }
    {
        self.mark
    }

    /// The number of the next issue.
    pub fn next_issue(&self) -> u64
        requires { IsOpenLedger self.now }
        ensures { result ≡ next_issue self.now.records }
    {
        prove!(self.issues < self.newest());
        self.issues + 1
    }

    /// The live nonce. None where a restore found no room for its boot record.
    pub fn live(&self) -> Option<Nonce>
        ensures { result ≡ live_in self.now.boot_missing self.now.records }
    {
        if self.boot_missing {
            return None;
        }
        match &self.live {
            Some(live) => Some(live.nonce),
            None => None,
        }
    }

    /// The token that is bound to the live nonce.
    pub fn token(&self) -> Option<&Text>
        requires { IsOpenLedger self.now }
        ensures { option_copied result ≡ bound_token self.now.records }
    {
        match &self.bound {
            Some(bound) => match &self.records()[(bound.number - self.base()) as usize - 1] {
                Rec::Bind { token } => Some(token),
                _ => unreachable!(),
            },
            None => None,
        }
    }

    /// The number of that token's Bind.
    pub fn bind_number(&self) -> Option<u64>
        requires { IsOpenLedger self.now }
        ensures { result ≡ bound_number self.now.records }
    {
        match &self.bound {
            Some(bound) => Some(bound.number),
            None => None,
        }
    }

    /// The amounts of the token that is bound to the live nonce.
    pub fn amounts(&self) -> Option<&Amounts>
        ensures { option_copied result ≡ self.now.bound }
    {
        match &self.bound {
            Some(bound) => Some(&bound.amounts),
            None => None,
        }
    }

    /// What was presented since the last mark in a currency, in thousandths.
    pub fn worth_presented(&self, currency: Currency) -> u64
        requires tells { TellsPresented self.now }
        ensures { result ≡ presented_in self.now.units self.now.records currency }
    {
        match &self.bound {
            Some(bound) => sum_of(&bound.amounts, &bound.presented, currency),
            None => 0,
        }
    }

    /// The places of the last boot record that was appended.
    pub fn booted(&self) -> &Places
        ensures { result.now ≡ self.now.booted }
    {
        &self.booted
    }

    /// The notes that were loaded since that boot record.
    pub fn loaded(&self) -> &Counts
        ensures { result.now ≡ self.now.loaded }
    {
        &self.loaded
    }

    /// So many notes of a unit, which counts from 1, were loaded. The journal has nothing of it.
    pub fn count_load(&mut self, unit: u8, count: u32)
        requires low { 1 ≤ unit }
        requires high { unit ≤ length self.old.units }
        requires small { at self.old.loaded (unit - 1) + count < 2 ^ 32 }
        ensures counted { self.new ≡ record self.old { loaded = with_notes self.old.loaded unit count } }
        ensures few { unit ≤ 8 }
    {
        prove!(unit <= self.units.len());
        self.loaded.0[usize::from(unit) - 1] += count;
    }

    /// Each limit less what the journal has of it: of the records those in memory, of the bytes those of the file.
    pub fn left(&self) -> Limits
        ensures records { result.records ≡ self.now.limits.records - (length self.now.records - self.now.base) }
        ensures bytes { result.bytes ≡ self.now.limits.bytes - size self.now.records }
    {
        self.journal.left()
    }

    /// The next nonce is issued, which has this word.
    pub fn issue(&mut self, nonce: Nonce, word: u64) -> Result<(), Deny>
        requires fits { write_refusal self.old (Issue nonce.number word) ≡ None }
        requires next { nonce.number ≡ next_issue self.old.records }
        requires text { nonce.text ≡ nonce_text nonce.number word }
        ensures writes { WritesLedger D.Disk (Issue nonce.number word) None result self.old self.new }
    {
        let issue = Rec::Issue {
            number: nonce.number,
            word,
        };
        let number = match append(&mut self.journal, issue) {
            Ok(number) => number,
            Err(deny) => {
                if deny == Deny::Disk {
                    self.doubted = Some(nonce);
                }
                return Err(deny);
            }
        };
        self.issues = nonce.number;
        self.mark = number;
        self.live = Some(Live { number, nonce });
        self.bound = None;
        Ok(())
    }

    /// The live nonce ends, by this record.
    pub fn end_nonce(&mut self, rec: Rec) -> Result<(), Deny>
        requires fits { write_refusal self.old rec ≡ None }
        requires ends { EndsNonce rec }
        ensures writes { WritesLedger D.Disk rec None result self.old self.new }
    {
        self.mark = append(&mut self.journal, rec)?;
        self.live = None;
        self.bound = None;
        Ok(())
    }

    /// A token is bound to the live nonce, which had none. Nothing was presented for it.
    pub fn bind(&mut self, token: Text, amounts: Amounts) -> Result<(), Deny>
        requires fits { write_refusal self.old (Bind token) ≡ None }
        requires live { (p : ℕ) × (live_of self.old.records ≡ Some p) }
        requires free { bound_token self.old.records ≡ None }
        requires fresh { (currency : List ℕ) → presented_in self.old.units self.old.records currency ≡ 0 }
        ensures writes { WritesLedger D.Disk (Bind token) (Some amounts) result self.old self.new }
    {
        let number = append(&mut self.journal, Rec::Bind { token })?;
        self.bound = Some(Bound {
            number,
            amounts,
            presented: [0; 9],
        });
        Ok(())
    }

    /// The operator added notes to a unit.
    pub fn load(&mut self, unit: u8, count: u32) -> Result<(), Deny>
        requires unit { HasUnit (Load unit count) }
        requires fits { write_refusal self.old (Load unit count) ≡ None }
        ensures writes { WritesLedger D.Disk (Load unit count) self.old.bound result self.old self.new }
    {
        append(&mut self.journal, Rec::Load { unit, count })?;
        Ok(())
    }

    /// Makes room for two more records.
    pub fn reserve_two(&mut self) -> Result<(), Memory>
        ensures ok { OnOk result (2 ≤ self.new.room) }
        ensures same { IsSame self.old self.new }
    {
        self.journal.reserve(2)
    }

    /// An order is written. It takes no memory.
    pub fn order(&mut self, kind: Kind, counts: Counts) -> Result<(), Deny>
        requires fits { write_refusal self.old (Order kind counts) ≡ None }
        requires room { 0 < self.old.room }
        ensures writes { WritesLedger D.Disk (Order kind counts) self.old.bound result self.old self.new }
        ensures err { IfErr result (λ e. e ≡ Deny.Disk) }
        ensures room { self.old.room ≤ self.new.room + 1 }
    {
        append(&mut self.journal, Rec::Order { kind, counts })?;
        Ok(())
    }

    /// What the order that stands last did. It takes no memory.
    pub fn done(&mut self, kind: Kind, moved: Counts, diverted: Counts) -> Result<(), Deny>
        requires fits { write_refusal self.old (Done moved diverted) ≡ None }
        requires room { 0 < self.old.room }
        requires ordered { (counts : Counts) × (record_at self.old.records (length self.old.records) ≡ Some (Order kind counts)) }
        requires small { StaysSmall self.old.units self.old.records kind moved }
        ensures writes { WritesLedger D.Disk (Done moved diverted) self.old.bound result self.old self.new }
        ensures err { IfErr result (λ e. e ≡ Deny.Disk) }
    {
        append(&mut self.journal, Rec::Done { moved, diverted })?;
        self.bound = bound_after(self.bound.take(), kind, &moved, &self.units);
        Ok(())
    }

    /// The journal is read again, and gets a boot record with these places.
    pub fn restore(&mut self, places: Survey, rebases: bool) -> Result<(), BootFault>
        ensures ok { OnOk result (IsBootedNow rebases self.old self.new places) }
        ensures fits { OnOk result (HadRoomThen rebases self.old.base (D.held self.old.disk) self.old.limits places self.new.records) }
        ensures refuses { RefusesReread D.Disk rebases places result self.old self.new }
        ensures goes_on { DiskGoesOn D.Disk self.old.disk self.new.disk }
        ensures left { EachImage D.Disk self.new.disk (StandsForSome (IsPossible self.new.records self.new.in_doubt)) }
        ensures any_moment { EachMoment D.Disk self.old.disk self.new.disk (λ _. IsOldOrReread D.Disk self.old self.new places) }
    {
        let before = self.newest();
        if let Err(why) = self.journal.remount() {
            return Err(BootFault::from(why));
        }
        self.bound = None;
        self.live = live_after(self.live, self.doubted, &self.journal, before);
        let issues = issues_of(&self.journal);
        let booted = *places.places();
        match append_boot(&mut self.journal, issues, places, rebases) {
            Ok(mark) => {
                self.issues = issues;
                self.mark = mark;
                self.live = None;
                self.booted = booted;
                self.loaded = Counts([0; 8]);
                self.boot_missing = false;
                Ok(())
            }
            Err(BootFault::Full) => {
                self.boot_missing = true;
                Err(BootFault::Full)
            }
            Err(BootFault::Disk) => Err(BootFault::Disk),
            Err(BootFault::Memory | BootFault::NotJournal { .. }) => unreachable!(),
        }
    }
}

// Memory keeps what came from the last boot record on, where the journal is to be rebased.
fn rebase_where<D: Disk>(rebases: bool, journal: &mut Journal<D>)
    ensures based { journal.new ≡ record journal.old { base = base_then rebases journal.old.base journal.old.records; room = journal.new.room } }
    ensures room { journal.old.room ≤ journal.new.room }
{
    if rebases {
        journal.rebase();
    }
}

// How many nonces were issued: in front of the journal's base, and behind it.
fn issues_of<D: Disk>(journal: &Journal<D>) -> u64
    ensures issues { result + 1 ≡ next_issue journal.now.records }
    ensures counted { result ≡ issues_in journal.now.records }
    ensures few { result ≤ length journal.now.records }
{
    let _few = journal.base();
    journal.issues() + count_issues(journal.records())
}

// The live issue, once a journal was read again that had so many records: it has one more where that in doubt was
// found.
fn live_after<D: Disk>(
    live: Option<Live>,
    doubted: Option<Nonce>,
    journal: &Journal<D>,
    before: u64,
) -> Option<Live>
    requires based { journal.now.base ≤ before }
    requires low { before ≤ length journal.now.records }
    requires high { length journal.now.records ≤ before + 1 }
    requires doubted { IsDoubted (record_at journal.now.records (before + 1)) doubted }
    ensures { IsLive (take before journal.now.records) live → IsLive journal.now.records result }
{
    let kept = journal.records();
    let at = (before - journal.base()) as usize;
    if at == kept.len() {
        return live;
    }
    match &kept[at] {
        Rec::Issue { .. } => match doubted {
            Some(nonce) => Some(Live {
                number: before + 1,
                nonce,
            }),
            None => None,
        },
        Rec::Clear | Rec::Expire | Rec::Boot { .. } | Rec::Start { .. } => None,
        _ => live,
    }
}

// Appends the record of a start to a journal that was just read, in which so many nonces were issued. Where it rebases,
// memory keeps the records from the last boot record on, and then the new one alone.
#[tactic(auto, unfolding(xfs_journal::specs::Journal::boot_of))]
fn append_boot<D: Disk>(
    journal: &mut Journal<D>,
    issues: u64,
    places: Survey,
    rebases: bool,
) -> Result<u64, BootFault>
    requires open { journal.old.shut ≡ false }
    requires issues { issues ≡ issues_in journal.old.records }
    ensures ok { IfOk result (IsAppended D.Disk journal.old journal.new (boot_of journal.old.records places)) }
    ensures based { OnOk result (journal.new.base ≡ base_then rebases journal.old.base journal.new.records) }
    ensures fits { OnOk result (exceeds journal.old.limits (base_then rebases journal.old.base journal.old.records) journal.new.records ≡ false) }
    ensures same { OnErr result (journal.new.records ≡ journal.old.records) }
    ensures base { OnErr result (journal.new.base ≡ base_then rebases journal.old.base journal.old.records) }
    ensures full { result ≡ Err BootFull → exceeds journal.old.limits journal.new.base (with_boot journal.old.records places) ≡ true }
    ensures mounted { result ≡ Err BootFull → (journal.new.shut ≡ false) × (journal.new.in_doubt ≡ journal.old.in_doubt) }
    ensures disk { result ≡ Err BootDisk → FailsAt D.Disk journal.old journal.new (boot_of journal.old.records places) }
    ensures unwritten { IfErr result (λ f. f ≢ BootDisk → journal.new.disk ≡ journal.old.disk) }
    ensures not_mounted { IfErr result (λ f. (at : ℕ) → f ≢ NotJournal at) }
    ensures reserved { 1 ≤ journal.old.room → result ≢ Err BootMemory }
    ensures limits { journal.new.limits ≡ journal.old.limits }
    ensures goes_on { DiskGoesOn D.Disk journal.old.disk journal.new.disk }
    ensures crashes { WritesAtMost D.Disk journal.old.disk journal.new.disk journal.old.records (boot_of journal.old.records places) }
{
    rebase_where(rebases, journal);
    match journal.append(Rec::Start { issues, places }) {
        Ok(number) => {
            rebase_where(rebases, journal);
            Ok(number)
        }
        Err(AppendFault::Full) => Err(BootFault::Full),
        Err(AppendFault::Memory) => Err(BootFault::Memory),
        Err(AppendFault::Disk) => Err(BootFault::Disk),
        Err(AppendFault::Shut) => unreachable!(),
    }
}

// Appends a record that no limit refuses, and answers its number.
fn append<D: Disk>(journal: &mut Journal<D>, rec: Rec) -> Result<u64, Deny>
    requires unit { HasUnit rec }
    requires fits { refusal journal.old rec ≡ None }
    ensures ok { IfOk result (IsAppended D.Disk journal.old journal.new rec) }
    ensures err { IfErr result IsWriteFault }
    ensures same { OnErr result (journal.new.records ≡ journal.old.records) }
    ensures memory { result ≡ Err Deny.Memory → IsUnwritten journal.old journal.new }
    ensures disk { result ≡ Err Deny.Disk → FailsAt D.Disk journal.old journal.new rec }
    ensures reserved { 1 ≤ journal.old.room → IfErr result (λ e. e ≡ Deny.Disk) }
    ensures room { journal.old.room ≤ journal.new.room + 1 }
    ensures keeps { KeepsJournal D.Disk journal.old journal.new }
    ensures any_moment { EachMoment D.Disk journal.old.disk journal.new.disk (λ _. StandsForEither journal.old.records rec) }
{
    match journal.append(rec) {
        Ok(number) => Ok(number),
        Err(AppendFault::Memory) => Err(Deny::Memory),
        Err(AppendFault::Disk) => Err(Deny::Disk),
        Err(AppendFault::Shut | AppendFault::Full) => unreachable!(),
    }
}

// The sum of a currency, and 0 where the amounts have none of it.
fn sum_of(amounts: &Amounts, sums: &[u64; 9], currency: Currency) -> u64
    ensures { IsSumOf amounts.now sums.now currency result }
{
    for i in 0..amounts.len() {
        if amounts.at(i).0 == currency {
            return sums[usize::from(i)];
        }
    }
    0
}

// The bind once an order of this kind has moved these notes.
fn bound_after(bound: Option<Bound>, kind: Kind, moved: &Counts, units: &UnitTable) -> Option<Bound>
    requires { FitsSums units.now kind moved.now bound }
    ensures { GrowsSums units.now kind moved.now bound result }
{
    let mut bound = bound?;
    if kind == Kind::Present {
        bound.presented = sums_with(&bound.presented, &bound.amounts, moved, units);
    }
    Some(bound)
}

// What was presented of each amount's currency, with these notes on top.
fn sums_with(presented: &[u64; 9], amounts: &Amounts, moved: &Counts, units: &UnitTable) -> [u64; 9]
    requires { StayWithin units.now moved.now amounts.now presented.now }
    ensures { GrowBy units.now moved.now amounts.now presented.now result }
{
    let mut sums = *presented;
    for i in 0..amounts.len() {
        let (currency, _) = amounts.at(i);
        sums[usize::from(i)] += moved.value(units, currency) as u64;
    }
    sums
}
