ghost use Rattle.std.specs.Prelude.{⊤};

use crate::moment::LAST_MOMENT;
use crate::{Clock, Moment};
use std::time::{Duration, Instant};
use std::{thread, time};

/// The system's clock, in milliseconds since it was made. Where the system tells no time it stands at 0.
/// A pause lasts a millisecond.
#[derive(Drop)]
pub struct StdClock<'a, R: time::Clock> {
    rt: &'a R,
    start: Option<Instant>,
}

impl<'a, R: time::Clock> StdClock<'a, R> {
    /// A clock that begins at 0.
    pub fn new(rt: &'a R) -> StdClock<'a, R> {
        StdClock {
            rt,
            start: Instant::now(rt).ok(),
        }
    }
}

impl<'a, R: time::Clock> Clock for StdClock<'a, R> {
    ghost tells = { λ _ _. ⊤ };

    fn now(&self) -> Moment {
        let Some(start) = self.start else {
            return Moment(0);
        };
        match Instant::now(self.rt) {
            Ok(now) => {
                let millis = now.saturating_duration_since(start).as_millis();
                if millis < u128::from(LAST_MOMENT) {
                    Moment(millis as u64)
                } else {
                    Moment(LAST_MOMENT)
                }
            }
            Err(_) => Moment(0),
        }
    }

    fn pause(&self) {
        thread::sleep(self.rt, Duration::from_millis(1));
    }
}
