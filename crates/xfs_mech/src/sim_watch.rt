use crate::{News, Touch, Watch};
use std::vec::IntoIter;

/// Touches in memory, and the places, from 1, of the calls that fail.
#[derive(Drop)]
pub struct SimWatch {
    touches: IntoIter<Touch>,
    failing: Vec<u64>,
    calls: u64,
    failures: u64,
}

impl SimWatch {
    ghost use Rattle.std.specs.Prelude.{◌≡◌};
    ghost use Rattle.xfs_mech.specs.SimWatch.{touches_of, failing_of, calls_of, failures_of};

    /// A watch that has told nothing yet. It takes no memory.
    pub fn new(touches: Vec<Touch>, failing: Vec<u64>) -> SimWatch
        ensures touches { touches_of result ≡ touches.items }
        ensures failing { failing_of result ≡ failing.items }
        ensures calls { calls_of result ≡ 0 }
        ensures failures { failures_of result ≡ 0 }
    {
        SimWatch {
            touches: touches.into_iter(),
            failing,
            calls: 0,
            failures: 0,
        }
    }
}

impl Watch for SimWatch {
    ghost use Rattle.std.specs.Prelude.{◌≡◌, ◌≤◌, ◌↔◌, Some, Contains};
    ghost use Rattle.xfs_base.specs.Causes.{Rose};
    ghost use Rattle.xfs_mech.specs.declared.touch.News.TheVariants as News;
    ghost use Rattle.xfs_base.specs.Causes.{next_count};
    ghost use Rattle.xfs_mech.specs.SimWatch.{touches_of, failing_of, calls_of, failures_of};
    ghost use Rattle.xfs_mech.specs.Watches.{Tells};

    ghost coming = { λ w. Some (touches_of w) };

    ghost faults = { failures_of };

    fn next(&mut self) -> News
        ensures handed { Tells (touches_of self.old) result (touches_of self.new) }
        ensures later { failures_of self.old ≤ failures_of self.new }
        ensures cause { result ≡ News.Failed → Rose (failures_of self.old) (failures_of self.new) }
        ensures failing { (result ≡ News.Failed) ↔ Contains (failing_of self.old) (next_count (calls_of self.old)) }
        ensures calls { calls_of self.new ≡ next_count (calls_of self.old) }
        ensures same { failing_of self.new ≡ failing_of self.old }
    {
        self.calls = self.calls.saturating_add(1);
        if self.failing.contains(&self.calls) {
            self.failures = self.failures.saturating_add(1);
            return News::Failed;
        }
        match self.touches.next() {
            Some(touch) => News::Touch(touch),
            None => News::Quiet,
        }
    }
}
