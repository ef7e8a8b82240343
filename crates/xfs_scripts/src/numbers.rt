//! How numbers, bytes and units are written in a file of cases.

use std::alloc::{AllocError, Global};
use xfs_base::{Counts, Currency, NoteKind, Places, UnitTable};
use xfs_mech::places_fit;

// The most numbers that one range has.
const LONGEST: u64 = 65_536;

/// The numbers of a line, from the first to the last where a word has two: None where a word has neither.
pub fn numbers_of(alloc: Global, text: &str) -> Result<Option<Vec<u64>>, AllocError> {
    let mut numbers = Vec::new(alloc);
    for word in text.split_whitespace() {
        match range_of(word) {
            Some((first, last)) => push_all(&mut numbers, first, last)?,
            None => return Ok(None),
        }
    }
    Ok(Some(numbers))
}

// The first and the last number of a word, which has one number or two with two points between them.
fn range_of(word: &str) -> Option<(u64, u64)> {
    let (first, last) = match word.split_once("..") {
        Some((first, last)) => (first, last),
        None => (word, word),
    };
    let first = first.parse::<u64>().ok()?;
    let last = last.parse::<u64>().ok()?;
    if first <= last && last - first < LONGEST {
        Some((first, last))
    } else {
        None
    }
}

fn push_all(numbers: &mut Vec<u64>, first: u64, last: u64) -> Result<(), AllocError> {
    for number in first..=last {
        numbers.push(number)?;
    }
    Ok(())
}

/// Adds the bytes that are written as pairs of hexadecimal digits, and answers whether the text is such words.
pub fn push_hex(bytes: &mut Vec<u8>, text: &str) -> Result<bool, AllocError> {
    let mut high: Option<u8> = None;
    for letter in text.as_bytes() {
        if *letter == b' ' && high.is_none() {
            continue;
        }
        let Some(digit) = digit_of(*letter) else {
            return Ok(false);
        };
        match high {
            Some(first) => {
                bytes.push(first.wrapping_mul(16).wrapping_add(digit))?;
                high = None;
            }
            None => high = Some(digit),
        }
    }
    Ok(high.is_none())
}

// The value of a hexadecimal digit, in either case.
fn digit_of(letter: u8) -> Option<u8> {
    match letter {
        b'0'..=b'9' => Some(letter - b'0'),
        b'A'..=b'F' => Some(letter - b'A' + 10),
        b'a'..=b'f' => Some(letter - b'a' + 10),
        _ => None,
    }
}

/// The units of a line, each with its notes, which are 100 where nothing else is said.
pub fn units_of(alloc: Global, text: &str) -> Result<Option<(UnitTable, Counts)>, AllocError> {
    let mut kinds = Vec::new(alloc);
    let mut counts = [0; 8];
    for word in text.split_whitespace() {
        let Some((kind, count)) = unit_of(word) else {
            return Ok(None);
        };
        if kinds.len() >= 8 {
            return Ok(None);
        }
        counts[kinds.len()] = count;
        kinds.push(kind)?;
    }
    let Some(units) = UnitTable::new(kinds.as_slice()) else {
        return Ok(None);
    };
    if places_fit(&units, &places_of(Counts(counts))) {
        Ok(Some((units, Counts(counts))))
    } else {
        Ok(None)
    }
}

// A currency with a value, and maybe a number of notes.
fn unit_of(word: &str) -> Option<(NoteKind, u32)> {
    let (letters, rest) = word.split_once(":")?;
    let (value, count) = match rest.split_once(":") {
        Some((value, count)) => (value, count.parse::<u32>().ok()?),
        None => (rest, 100),
    };
    let currency = Currency::new(letters.as_bytes())?;
    let value = value.parse::<u32>().ok()?;
    Some((NoteKind { currency, value }, count))
}

/// These notes in the units, and none elsewhere.
pub fn places_of(units: Counts) -> Places {
    let none = Counts([0; 8]);
    Places {
        units,
        transport: none,
        outlet: none,
        taken: none,
        retracted: none,
        rejected: none,
    }
}
