//! A gate at which clients keep step.

use std::sync::atomic::{AtomicU64, Ordering};
use xfs_base::{ClientId, Clock};
use xfs_server::{Gate, GateAt};

// So often it is looked for the others, a millisecond apart.
const LOOKS: u64 = 10_000;

/// Lets the first texts of so many clients pass once all of them have come, and so their second texts: the
/// second ones come when all first ones were answered. Later texts pass.
#[derive(Drop)]
pub struct Steps<'a, C: Clock> {
    clients: u64,
    posts: AtomicU64,
    clock: &'a C,
}

impl<'a, C: Clock> Steps<'a, C> {
    pub fn new(clients: u64, clock: &'a C) -> Steps<'a, C> {
        Steps {
            clients,
            posts: AtomicU64::new(0),
            clock,
        }
    }

    fn wait_for(&self, posts: u64) {
        for _ in 0..LOOKS {
            if self.posts.load(Ordering::SeqCst) >= posts {
                return;
            }
            self.clock.pause();
        }
    }
}

impl<'a, C: Clock> Gate for Steps<'a, C> {
    fn pass(&self, _client: ClientId, what: GateAt) {
        if what != GateAt::Post {
            return;
        }
        let before = self.posts.fetch_add(1, Ordering::SeqCst);
        if before < self.clients {
            self.wait_for(self.clients);
        } else {
            self.wait_for(self.clients.saturating_mul(2));
        }
    }
}
