//! Which issue lives, as far as the records were read.

ghost use Rattle.std.specs.Prelude.{◌≡◌, ℕ, ◌<◌, ◌≤◌, ◌^◌, ◌⊎◌, List, length, Some};
ghost use Rattle.xfs_journal.specs.declared.record.Rec.{Rec as Record};
ghost use Rattle.xfs_journal.specs.Journal.{is_mark, live_after};
ghost use Rattle.xfs_audit.specs.Reading.{IsRead};

use xfs_journal::Rec;

/// How many records were read, and the number of the Issue that lives behind them.
#[derive(Clone, Copy)]
pub struct Reader {
    pub count: usize,
    pub live: Option<usize>,
}

impl Reader {
    pub fn new() -> Reader
        ensures read { (records : List Record) → IsRead records result }
        ensures start { result.count ≡ 0 }
    {
        Reader {
            count: 0,
            live: None,
        }
    }

    /// Reads on, until so many records were read.
    pub fn advance(&mut self, records: &[Rec], count: usize)
        requires read { IsRead records.now self.old }
        requires low { self.old.count ≤ count }
        requires high { count ≤ length records.now }
        ensures read { IsRead records.now self.new }
        ensures count { self.new.count ≡ count }
        ensures newer { (p : ℕ) → self.new.live ≡ Some p → (self.old.live ≡ Some p) ⊎ (self.old.count < p) }
    {
        for place in self.count..count {
            self.live = live_after(place, self.live, &records[place]);
        }
        self.count = count;
    }
}

// The issue that lives behind one more record.
fn live_after(count: usize, live: Option<usize>, entry: &Rec) -> Option<usize>
    requires { count < 2 ^ 63 }
    ensures { result ≡ live_after count live entry.now }
{
    match entry {
        Rec::Issue { .. } => Some(count + 1),
        _ if is_mark(entry) => None,
        _ => live,
    }
}

/// Whether a record ends what the issue before it allowed.
pub fn is_mark(entry: &Rec) -> bool
    ensures { result ≡ is_mark entry.now }
{
    matches!(
        entry,
        Rec::Issue { .. } | Rec::Clear | Rec::Expire | Rec::Boot { .. } | Rec::Start { .. }
    )
}
