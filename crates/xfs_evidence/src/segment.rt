//! The segment of the last Issue.

ghost use Rattle.std.specs.Prelude.{◌≡◌, ◌+◌, ◌<◌, ◌≤◌, ℕ, false, length, IfSome};
ghost use Rattle.std.specs.List.{before_first, list_any, position_or_len};
ghost use Rattle.std.specs.Option.{option_map};
ghost use Rattle.xfs_journal.specs.Journal as journal;
ghost use Rattle.xfs_guard.specs.Segment as segments;
ghost use Rattle.xfs_evidence.specs.Evidence as evidences;

use xfs_base::Kind;
use xfs_journal::Rec;

/// The place of the last Issue, from 1; 0 where there is none. It goes back from the end, and no further.
pub fn last_issue(records: &[Rec]) -> usize
    ensures place { result ≡ segments.last_issue records.now }
    ensures within { result ≤ length records.now }
{
    let mut n = records.len();
    'back: while n > 0 {
        if is_issue(&records[n - 1]) {
            return n;
        }
        n -= 1;
    }
    0
}

/// The records in front of the first mark.
pub fn unmarked_part(records: &[Rec]) -> &[Rec]
    ensures front { result.now ≡ before_first journal.is_mark records.now }
    ensures unmarked { list_any journal.is_mark result.now ≡ false }
{
    records.split_at(first_mark(records)).0
}

fn first_mark(records: &[Rec]) -> usize
    ensures { result ≡ position_or_len journal.is_mark records.now }
{
    for i in 0..records.len() {
        if is_mark(&records[i]) {
            return i;
        }
    }
    records.len()
}

/// The place, from 0, of the first order to present that no Done follows directly.
pub fn open_order(segment: &[Rec]) -> Option<usize>
    ensures first { (number : ℕ) → option_map (λ place. number + place) result ≡ evidences.first_open number segment.now }
    ensures within { IfSome result (λ place. place < length segment.now) }
{
    for i in 0..segment.len() {
        if is_unsettled(&segment[i], segment.split_at(i + 1).1) {
            return Some(i);
        }
    }
    None
}

fn is_unsettled(rec: &Rec, behind: &[Rec]) -> bool
    ensures { result ≡ evidences.is_unsettled rec.now behind.now }
{
    is_present(rec) && !begins_done(behind)
}

/// An order to present.
pub fn is_present(rec: &Rec) -> bool
    ensures { result ≡ evidences.is_present rec.now }
{
    matches!(
        rec,
        Rec::Order {
            kind: Kind::Present,
            ..
        }
    )
}

fn begins_done(records: &[Rec]) -> bool
    ensures { result ≡ evidences.begins_done records.now }
{
    matches!(records, [Rec::Done { .. }, ..])
}

fn is_issue(rec: &Rec) -> bool
    ensures { result ≡ journal.is_issue rec.now }
{
    matches!(rec, Rec::Issue { .. })
}

fn is_mark(rec: &Rec) -> bool
    ensures { result ≡ journal.is_mark rec.now }
{
    matches!(
        rec,
        Rec::Issue { .. } | Rec::Clear | Rec::Expire | Rec::Boot { .. } | Rec::Start { .. }
    )
}
