//! What a journal tells of the notes that were put out.

use std::alloc::Global;
use std::test::Fail;
use xfs_base::{Counts, Kind, Memory, Places, UnitTable};
use xfs_disk::Disk;
use xfs_journal::{Journal, Rec};
use xfs_machine::Machine;
use xfs_mech::Mechanism;
use xfs_simulated::{LIMITS, places_left};

/// What the journal of a machine tells, and where its mechanism has the notes.
#[derive(Drop)]
pub struct Account {
    /// The notes of each order to present that was done.
    pub presented: Vec<Counts>,
    /// The numbers of the Issues rise by one, each segment has at most one token, and each order to present
    /// that was done has a segment of its own that has one.
    pub is_orderly: bool,
    /// Where the notes lie by the journal, which counts as taken what lies in the outlet.
    pub told: Places,
    pub found: Places,
}

impl Account {
    /// Whether the mechanism has the notes where the journal tells them, and those that were put out and
    /// those that still lie there are in each unit as many as these.
    pub fn adds_up(&self, notes: &[u32; 8]) -> bool {
        let out = sum_of(&self.presented);
        let told = &self.told;
        let rest = sum_of(&[told.units, told.transport, told.retracted, told.rejected]);
        settled(&self.found) == *told && told.taken == out && sum_of(&[out, rest]).0 == *notes
    }
}

// The notes of all of these.
fn sum_of(list: &[Counts]) -> Counts {
    let mut sum = [0u32; 8];
    for counts in list {
        for (unit, count) in counts.0.iter().enumerate() {
            sum[unit] = sum[unit].saturating_add(*count);
        }
    }
    Counts(sum)
}

// The places once what lies in the outlet was taken.
fn settled(places: &Places) -> Places {
    Places {
        outlet: Counts([0; 8]),
        taken: sum_of(&[places.outlet, places.taken]),
        ..*places
    }
}

/// The account of a machine, by the journal that it leaves on its disk.
pub fn account_of<M: Mechanism, D: Disk>(
    alloc: Global,
    units: &UnitTable,
    machine: Machine<M, D>,
) -> Result<Account, Fail> {
    let (mech, disk) = machine.end();
    let found = mech.survey();
    drop(mech);
    let journal = mounted(alloc, disk).ok_or("a journal")?;
    read_of(alloc, units, journal.records(), found)
}

fn mounted<D: Disk>(alloc: Global, disk: D) -> Option<Journal<D>> {
    Journal::mount(alloc, disk, LIMITS).ok()
}

// What these records tell, where the notes were found here.
fn read_of(
    alloc: Global,
    units: &UnitTable,
    records: &[Rec],
    found: Places,
) -> Result<Account, Fail> {
    let told = places_left(alloc, units, records)?.ok_or("the places")?;
    let reader = Reader::over(alloc, records)?;
    Ok(Account {
        presented: reader.presented,
        is_orderly: reader.is_orderly,
        told,
        found,
    })
}

/// What was read so far of a journal.
#[derive(Drop)]
struct Reader {
    presented: Vec<Counts>,
    is_orderly: bool,
    issues: u64,
    segment: Segment,
    ordered: Option<Kind>,
}

/// What the records since the last Issue have.
#[derive(Clone, Copy, PartialEq, Eq)]
enum Segment {
    Nothing,
    Token,
    Present,
}

impl Reader {
    fn new(alloc: Global) -> Reader {
        Reader {
            presented: Vec::new(alloc),
            is_orderly: true,
            issues: 0,
            segment: Segment::Nothing,
            ordered: None,
        }
    }

    // What was read of these records.
    fn over(alloc: Global, records: &[Rec]) -> Result<Reader, Memory> {
        let mut reader = Reader::new(alloc);
        for rec in records {
            reader.read(rec)?;
        }
        Ok(reader)
    }

    fn read(&mut self, rec: &Rec) -> Result<(), Memory> {
        let mut ordered = None;
        match rec {
            Rec::Issue { number, word: _ } => {
                self.is_orderly = self.is_orderly && self.issues.checked_add(1) == Some(*number);
                self.issues = *number;
                self.segment = Segment::Nothing;
            }
            Rec::Bind { token: _ } => self.step(Segment::Nothing, Segment::Token),
            Rec::Order { kind, counts: _ } => ordered = Some(*kind),
            Rec::Done { moved, diverted: _ } if self.ordered == Some(Kind::Present) => {
                self.step(Segment::Token, Segment::Present);
                self.presented.push(*moved)?;
            }
            _ => {}
        }
        self.ordered = ordered;
        Ok(())
    }

    // The segment goes from one state to the next.
    fn step(&mut self, from: Segment, to: Segment) {
        self.is_orderly = self.is_orderly && self.segment == from;
        self.segment = to;
    }
}
