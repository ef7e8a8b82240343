//! The words of a case.

use xfs_base::Service;

/// What stands before and behind the first of these marks: all of it before, where there is none.
pub fn cut_at<'a>(text: &'a str, mark: &str) -> (&'a str, &'a str) {
    match text.split_once(mark) {
        Some(parts) => parts,
        None => (text, ""),
    }
}

/// The word at this place, from 0. Empty where there is none.
pub fn word(text: &str, at: usize) -> &str {
    text.split_whitespace().nth(at).unwrap_or("")
}

/// The number at this place, from 0. 0 where there is none.
pub fn number(text: &str, at: usize) -> u64 {
    word(text, at).parse::<u64>().unwrap_or(0)
}

/// The service that the first word names.
pub fn service_of(text: &str) -> Service {
    match word(text, 0) {
        "publisher" => Service::Publisher,
        "card" => Service::Card,
        "keys" => Service::Keys,
        _ => Service::Cash,
    }
}
