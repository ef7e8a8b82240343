ghost use Rattle.std.specs.Prelude.{[]};

use xfs_turn::Chronicle;

/// How many turns were taken. Its list is empty, so that the lock alone is timed.
#[derive(Drop)]
pub struct Tally {
    pub taken: u64,
}

impl Chronicle for Tally {
    type Entry = u64;

    ghost list = { λ _. [] };

    fn count(&self) -> u64 {
        0
    }
}
