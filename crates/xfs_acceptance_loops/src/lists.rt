//! The words of a row, and its lists: items with commas between, or `-` for none.

use std::alloc::Global;
use xfs_base::{Bytes, Memory};

/// What stands before and behind the arrow of a row.
pub fn halves(row: &str) -> (&str, &str) {
    match row.split_once(" => ") {
        Some(halves) => halves,
        None => (row, ""),
    }
}

/// The first word, and what stands behind it.
pub fn first_of(words: &str) -> (&str, &str) {
    match words.split_once(' ') {
        Some(parts) => parts,
        None => (words, ""),
    }
}

pub fn bytes_of(alloc: Global, text: &str) -> Result<Bytes, Memory> {
    Ok(Bytes::new(Vec::from_slice(alloc, text.as_bytes())?))
}

/// The texts of a list.
pub fn texts_of(alloc: Global, list: &str) -> Result<Vec<Bytes>, Memory> {
    let mut texts = Vec::new(alloc);
    if list == "-" {
        return Ok(texts);
    }
    for text in list.split(',') {
        texts.push(bytes_of(alloc, text)?)?;
    }
    Ok(texts)
}

/// The numbers of a list.
pub fn numbers_of(alloc: Global, list: &str) -> Result<Vec<u64>, Memory> {
    let mut numbers = Vec::new(alloc);
    for number in list.split(',') {
        if let Ok(number) = number.parse::<u64>() {
            numbers.push(number)?;
        }
    }
    Ok(numbers)
}

/// Whether this is the number that stands there.
pub fn is(number: u64, digits: &str) -> bool {
    digits.parse::<u64>() == Ok(number)
}

/// Whether these are the texts of a list.
pub fn are(texts: &[Bytes], list: &str) -> bool {
    if list == "-" {
        return texts.is_empty();
    }
    let mut rest = texts.iter();
    for due in list.split(',') {
        match rest.next() {
            Some(text) if text.list() == due.as_bytes() => {}
            _ => return false,
        }
    }
    rest.next().is_none()
}
