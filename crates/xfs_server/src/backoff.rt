//! How long whoever finds nothing waits before the next look.

use crate::Bell;
use std::sync::Wait;
use xfs_base::Clock;

// How many pauses in a row last as long as the clock's.
const SHORT_PAUSES: u32 = 16;

/// The pauses between looks that find nothing: sixteen of the clock, then each twice the one before, up to a longest. A long
/// one ends where the bell rings.
#[derive(Drop)]
pub struct Backoff<'b> {
    bell: &'b Bell,
    longest: u64,
    made: u32,
    millis: u64,
}

impl<'b> Backoff<'b> {
    /// Up to so many milliseconds. Its first pauses are short.
    pub fn up_to(longest: u64, bell: &'b Bell) -> Backoff<'b> {
        Backoff {
            bell,
            longest,
            made: 0,
            millis: 1,
        }
    }

    /// The next pauses are short again, since something was found.
    pub fn reset(&mut self) {
        self.made = 0;
        self.millis = 1;
    }

    /// A look begins: where a long pause is next, the bell is listened for, so that what this look doesn't see ends the pause.
    pub fn begin_look(&self) {
        if self.made >= SHORT_PAUSES {
            self.bell.listen();
        }
    }

    /// Waits before the next look. Where the bell has rung, the next pauses are short.
    pub fn pause<R: Wait, C: Clock>(&mut self, rt: &R, clock: &C) {
        if self.made < SHORT_PAUSES {
            self.made += 1;
            clock.pause();
        } else {
            self.millis = self.millis.saturating_mul(2).min(self.longest);
            if self.bell.sleep(rt, self.millis) {
                self.reset();
            }
        }
    }
}
