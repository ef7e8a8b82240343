//! What befalls the clients of a server, and the gate that holds some of them back.

use std::fmt::Write;
use std::sync::atomic::{AtomicBool, AtomicU64, Ordering};
use std::test::Fail;
use xfs_base::{ClientId, Clock};
use xfs_server::{Gate, GateAt};

/// So often it is looked for what doesn't come, a millisecond apart, before a test gives up.
pub const LOOKS: u64 = 10_000;

/// What the links, the doors and the gate of a server share.
#[derive(Drop)]
pub struct Scene<'a, C: Clock> {
    pub clock: &'a C,
    /// So many clients heard all their texts.
    pub answered: AtomicU64,
    /// The links of so many were let go.
    pub let_go: AtomicU64,
    /// One heard another text, or it was waited too long.
    pub amiss: AtomicBool,
    // The gate holds one back, or did.
    held: AtomicBool,
    // The gate holds the clients up to this number back, and the others until one of those is held.
    last: u64,
    // It does so until a link was let go, else until those who came after a client have heard all their texts, the last
    // of them first.
    until_let_go: bool,
}

impl<'a, C: Clock> Scene<'a, C> {
    /// A scene whose gate holds back the texts of so many clients.
    pub fn new(clock: &'a C, last: u64, until_let_go: bool) -> Scene<'a, C> {
        Scene {
            clock,
            answered: AtomicU64::new(0),
            let_go: AtomicU64::new(0),
            amiss: AtomicBool::new(false),
            held: AtomicBool::new(false),
            last,
            until_let_go,
        }
    }

    /// Tells how many clients heard all their texts, how many links were let go, whether one was held back, and whether
    /// anything was amiss.
    pub fn tell(&self, told: &mut String) -> Result<(), Fail> {
        let answered = self.answered.load(Ordering::SeqCst);
        let let_go = self.let_go.load(Ordering::SeqCst);
        let held = self.held.load(Ordering::SeqCst);
        let amiss = self.amiss.load(Ordering::SeqCst);
        write!(told, "{answered} {let_go} held {held} amiss {amiss}\n")?;
        Ok(())
    }

    fn may_pass(&self, client: u64) -> bool {
        if client > self.last {
            return self.held.load(Ordering::SeqCst);
        }
        if self.until_let_go {
            return self.let_go.load(Ordering::SeqCst) > 0;
        }
        self.answered.load(Ordering::SeqCst) > self.last - client
    }
}

impl<'a, C: Clock> Gate for Scene<'a, C> {
    fn pass(&self, client: ClientId, what: GateAt) {
        if what != GateAt::Post || self.last == 0 {
            return;
        }
        let client = u64::from(client.0);
        if client <= self.last {
            self.held.store(true, Ordering::SeqCst);
        }
        for _ in 0..LOOKS {
            if self.may_pass(client) {
                return;
            }
            self.clock.pause();
        }
        self.amiss.store(true, Ordering::SeqCst);
    }
}
