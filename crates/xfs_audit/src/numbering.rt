//! Whether the nonces are numbered.

ghost use Rattle.std.specs.Prelude.{◌≡◌, ◌↔◌, IsTrue, ◌-◌, ◌<◌, ◌^◌};
ghost use Rattle.xfs_journal.specs.Journal.{Numbered, CarriesNumber, next_number};

use xfs_journal::Rec;

/// Whether the nonces of a journal carry the numbers from 1 on, in the order of their records, and each Start tells how
/// many there are before it.
pub fn is_numbered(records: &[Rec]) -> bool
    ensures { IsTrue result ↔ Numbered records.now }
{
    let mut next = 1;
    for entry in records {
        if !carries(entry, next) {
            return false;
        }
        next = number_after(next, entry);
    }
    true
}

// Whether a record carries the number that is due, where it carries one.
fn carries(entry: &Rec, due: u64) -> bool
    ensures { IsTrue result ↔ CarriesNumber due entry.now }
{
    match entry {
        Rec::Issue { number, .. } => *number == due,
        Rec::Start { issues, .. } => issues.checked_add(1) == Some(due),
        _ => true,
    }
}

// The number that is due behind a record.
fn number_after(due: u64, entry: &Rec) -> u64
    requires { due < 2 ^ 64 - 1 }
    ensures { result ≡ next_number due entry.now }
{
    match entry {
        Rec::Issue { .. } => due + 1,
        _ => due,
    }
}
