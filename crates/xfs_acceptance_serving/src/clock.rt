//! The clock of a session or a worker.

use std::sync::atomic::{AtomicBool, AtomicU64, Ordering};
use xfs_base::{Clock, FixedClock, Moment};

/// A clock that goes on by a step each time that it is asked, and says at the first pause that all is over.
#[derive(Drop)]
pub struct StepClock {
    now: AtomicU64,
    step: u64,
    pub ended: AtomicBool,
}

impl StepClock {
    pub fn new(step: u64) -> StepClock {
        StepClock {
            now: AtomicU64::new(0),
            step,
            ended: AtomicBool::new(false),
        }
    }
}

impl Clock for StepClock {
    ghost use Rattle.std.specs.Prelude.{⊤};

    ghost tells = { λ _ _. ⊤ };

    fn now(&self) -> Moment {
        FixedClock(self.now.fetch_add(self.step, Ordering::SeqCst)).now()
    }

    fn pause(&self) {
        self.ended.store(true, Ordering::SeqCst);
    }
}
