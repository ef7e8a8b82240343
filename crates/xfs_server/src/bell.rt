//! What wakes a worker that has nothing to do.

use std::sync::Wait;
use std::sync::atomic::{AtomicU64, Ordering};
use std::time::Duration;

const QUIET: u64 = 0;

const LISTENS: u64 = 1;

/// A bell at which one worker listens. Who posts something rings it. No proof rests on it, and without a ring a worker
/// wakes by itself.
#[derive(Drop)]
pub struct Bell {
    state: AtomicU64,
}

impl Bell {
    /// A bell at which nobody listens.
    pub fn new() -> Bell {
        Bell {
            state: AtomicU64::new(QUIET),
        }
    }

    /// The worker listens from now on. What was posted before is found by a look that it makes afterwards.
    pub fn listen(&self) {
        self.state.store(LISTENS, Ordering::SeqCst);
    }

    /// Sleeps until it rings, or for so many milliseconds; not at all where it has rung since `listen`. True where it rang.
    pub fn sleep<R: Wait>(&self, rt: &R, millis: u64) -> bool {
        self.state
            .park_timeout(rt, LISTENS as u32, Duration::from_millis(millis));
        self.state.load(Ordering::SeqCst) == QUIET
    }

    /// Wakes the worker that listens. Where none does it asks nothing of the system.
    pub fn ring(&self) {
        if self.state.load(Ordering::SeqCst) == LISTENS {
            self.state.store(QUIET, Ordering::SeqCst);
            self.state.wake_one();
        }
    }
}
