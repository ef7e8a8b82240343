use std::sync::atomic::{AtomicU64, Ordering};

// After a wake so many turns may pass before the next one, as long as no sleeper has come back: a seat
// that is woken needs longer than many turns last, and each wake is a system call. The number also bounds
// what it costs that a wake came just before its sleeper slept.
const PASSES: u64 = 16;

/// Who sleeps for the turn. These are hints, on which only the length of a wait rests.
#[derive(Drop)]
pub struct Sleepers {
    count: AtomicU64,
    passes: AtomicU64,
}

impl Sleepers {
    pub fn new() -> Sleepers {
        Sleepers {
            count: AtomicU64::new(0),
            passes: AtomicU64::new(0),
        }
    }

    /// Whether some seat sleeps, or is about to.
    pub fn is_any(&self) -> bool {
        self.count.load(Ordering::SeqCst) != 0
    }

    pub fn enter(&self) {
        self.count.fetch_add(1, Ordering::SeqCst);
    }

    pub fn leave(&self) {
        self.passes.store(0, Ordering::SeqCst);
        self.count.fetch_sub(1, Ordering::SeqCst);
    }

    /// Whether one is to be woken at the end of a turn.
    pub fn wants_wake(&self) -> bool {
        if !self.is_any() {
            return false;
        }
        let passes = self.passes.load(Ordering::SeqCst);
        let next = if passes == 0 { PASSES } else { passes - 1 };
        self.passes.store(next, Ordering::SeqCst);
        passes == 0
    }
}
