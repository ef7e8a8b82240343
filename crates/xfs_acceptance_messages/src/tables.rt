//! How a table is written: a line a row, with an arrow between what is done and what is due.

/// What stands before and behind the arrow of a row.
pub fn halves(row: &str) -> (&str, &str) {
    match row.split_once(" => ") {
        Some(halves) => halves,
        None => (row, ""),
    }
}
