//! The motions that a journal stands for.

use std::alloc::Global;
use std::test::Fail;
use xfs_base::{Counts, Kind, Places};
use xfs_guard::motions_of;
use xfs_journal::{Rec, Survey, Text};
use xfs_mech::Motion;

const NONE: Counts = Counts([0; 8]);

// The base, the records, with notes of EUR 10 and EUR 20 in place of counts, and the motions. First a token of EUR 50 is paid
// out as a note of EUR 20 and, once that was taken, three of EUR 10, and the same behind seven records; then come a load, an
// order that a start cut off, a note that went to the bin on its way, a retract that leaves two of three notes, of which the
// customer takes those, one by which more notes come back than lay there, and a done of no order.
const ROWS: &str =
    "0: boot 00, issue, bind, stack 01, done 01 00, present 01, done 01 00, stack 30, done 30 00, present 30, done 30 00 => 4 Stack 01 00, 6 Present 01 00, 8 Stack 30 00, taken 01, 10 Present 30 00, taken 30
7: boot 00, issue, bind, stack 01, done 01 00, present 01, done 01 00, stack 30, done 30 00, present 30, done 30 00 => 11 Stack 01 00, 13 Present 01 00, 15 Stack 30 00, taken 01, 17 Present 30 00, taken 30
0: boot 00, load 2 5 => loaded 2 5
0: boot 00, stack 01, boot 00 => 
0: boot 00, stack 20, done 10 10 => 2 Stack 10 10
0: boot 30, retract 30, done 10 00 => 2 Retract 10 00, taken 20
0: boot 10, retract 20, done 20 00 => 2 Retract 20 00
0: boot 00, done 10 00 => ";

// So many notes as the two digits say.
fn counts(digits: &str) -> Counts {
    match digits.as_bytes() {
        [first, second] => Counts([
            u32::from(first.saturating_sub(b'0')),
            u32::from(second.saturating_sub(b'0')),
            0,
            0,
            0,
            0,
            0,
            0,
        ]),
        _ => NONE,
    }
}

// A Boot with 100 notes in each of four units, and these in the outlet.
fn boot(alloc: Global, outlet: Counts) -> Result<Rec, Fail> {
    let places = Places {
        units: Counts([100, 100, 100, 100, 0, 0, 0, 0]),
        transport: NONE,
        outlet,
        taken: NONE,
        retracted: NONE,
        rejected: NONE,
    };
    let places = Survey::new(alloc, places)?;
    Ok(Rec::Boot { places })
}

fn record(alloc: Global, words: &str) -> Result<Rec, Fail> {
    let (word, digits) = words.split_once(" ").unwrap_or((words, ""));
    let (first, second) = digits.split_once(" ").unwrap_or((digits, ""));
    Ok(match word {
        "boot" => boot(alloc, counts(first))?,
        "issue" => Rec::Issue { number: 1, word: 7 },
        "bind" => Rec::Bind {
            token: Text::new(b"token".to_vec(alloc)?).ok_or("a token")?,
        },
        "load" => Rec::Load { unit: 2, count: 5 },
        "done" => Rec::Done {
            moved: counts(first),
            diverted: counts(second),
        },
        _ => Rec::Order {
            kind: kind_of(word),
            counts: counts(first),
        },
    })
}

fn kind_of(word: &str) -> Kind {
    match word {
        "stack" => Kind::Stack,
        "present" => Kind::Present,
        _ => Kind::Retract,
    }
}

// A motion, where no other notes were moved than those of EUR 10 and EUR 20.
fn told(alloc: Global, motion: &Motion) -> Result<String, Fail> {
    Ok(match motion {
        Motion::Moved {
            number,
            kind,
            moved,
            diverted,
        } => {
            let (moved, diverted) = (digits(alloc, moved)?, digits(alloc, diverted)?);
            format!(in alloc; "{number} {kind:?} {moved} {diverted}")?
        }
        Motion::Taken { counts } => format!(in alloc; "taken {}", digits(alloc, counts)?)?,
        Motion::Loaded { unit, count } => format!(in alloc; "loaded {unit} {count}")?,
    })
}

fn digits(alloc: Global, counts: &Counts) -> Result<String, Fail> {
    match counts.0 {
        [first, second, 0, 0, 0, 0, 0, 0] => Ok(format!(in alloc; "{first}{second}")?),
        _ => Err("notes of another unit".into()),
    }
}

fn records_of(alloc: Global, words: &str) -> Result<Vec<Rec>, Fail> {
    let mut records = Vec::new(alloc);
    for words in words.split(", ") {
        records.push(record(alloc, words)?)?;
    }
    Ok(records)
}

fn all_told(alloc: Global, motions: &[Motion]) -> Result<String, Fail> {
    let mut all = String::new(alloc);
    for motion in motions {
        let mark = if all.is_empty() { "" } else { ", " };
        all.push_str(mark)?;
        all.push_str(told(alloc, motion)?.as_str())?;
    }
    Ok(all)
}

// The motions that records behind a base tell of.
fn motions_told(alloc: Global, base: u64, records: &[Rec]) -> Result<String, Fail> {
    base.checked_add(records.len() as u64)
        .ok_or("a smaller base")?;
    let motions = motions_of(alloc, base, records)?;
    all_told(alloc, motions.as_slice())
}

// The base, the records and the motions of a row.
fn parts_of(row: &str) -> Option<(u64, &str, &str)> {
    let (base, row) = row.split_once(": ")?;
    let (words, due) = row.split_once(" => ")?;
    Some((base.parse::<u64>().ok()?, words, due))
}

// Whether the records of a row give its motions.
fn give(alloc: Global, row: &str) -> Result<bool, Fail> {
    let (base, words, due) = parts_of(row).ok_or("a row")?;
    let records = records_of(alloc, words)?;
    Ok(motions_told(alloc, base, &records)?.as_str() == due)
}

#[test]
fn records_give_the_motions_that_they_tell_of(rt: HostRuntime) -> Result<(), Fail> {
    for row in ROWS.lines() {
        assert!(rt; give(rt.alloc(), row)?, "{row}");
    }
    Ok(())
}
