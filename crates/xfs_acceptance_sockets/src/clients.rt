//! Clients that ask anew where another came between.

use std::alloc::Global;
use std::sync::Wait;
use std::sync::atomic::{AtomicBool, AtomicU64, Ordering};
use xfs_base::{Clock, Currency, MemSink, Service};
use xfs_envelope::Code;
use xfs_server::{Doors, Link, Taking};
use xfs_simulated::KEY;
use xfs_sockets::Ports;
use xfs_withdraw::{Ending, withdraw};

/// So many EUR each client withdraws.
pub const AMOUNT: u32 = 70;

// So often an answer is looked for, a millisecond apart.
const LOOKS: u32 = 10_000;

const REJECT: &str =
    "{\"header\":{\"name\":\"CashDispenser.Reject\",\"requestId\":1,\"type\":\"command\"}}";

/// What the clients and their server share.
#[derive(Drop)]
pub struct Shared<'a, R, C> {
    pub rt: &'a R,
    pub alloc: Global,
    pub clock: &'a C,
    pub currency: Currency,
    /// Where the server listens.
    pub ports: Ports,
    /// So many connections it takes.
    pub connections: u32,
    /// How often a withdrawal was tried.
    pub tries: AtomicU64,
    /// The server has ended.
    pub is_over: AtomicBool,
}

impl<'a, R, C> Shared<'a, R, C> {
    /// Nobody has tried yet. None where EUR is no currency, which it is.
    pub fn new(
        rt: &'a R,
        alloc: Global,
        clock: &'a C,
        ports: Ports,
        connections: u32,
    ) -> Option<Shared<'a, R, C>> {
        let currency = Currency::new(b"EUR")?;
        Some(Shared {
            rt,
            alloc,
            clock,
            currency,
            ports,
            connections,
            tries: AtomicU64::new(0),
            is_over: AtomicBool::new(false),
        })
    }
}

impl<'a, R: Wait, C: Clock> Shared<'a, R, C> {
    /// Withdraws, and anew where another client came between, so often at most: whether the notes were
    /// presented. Other ends are told.
    pub fn withdraw<O: Doors>(&self, doors: &mut O, most: u32) -> Result<bool, Ending> {
        for _ in 0..most {
            match self.try_once(doors) {
                Ending::Done => return Ok(true),
                ending if !is_between(ending) => return Err(ending),
                _ if put_back(doors, self.clock) => {}
                _ => return Err(Ending::Failed),
            }
        }
        Ok(false)
    }

    fn try_once<O: Doors>(&self, doors: &mut O) -> Ending {
        self.tries.fetch_add(1, Ordering::SeqCst);
        let mut sink = MemSink::new(self.alloc, Vec::new(self.alloc));
        withdraw(
            self.rt,
            self.alloc,
            self.currency,
            AMOUNT,
            KEY,
            doors,
            self.clock,
            &mut sink,
        )
        .ending
    }
}

// Whether another client came between: its nonce replaced this one's before the dispense was done
// (`invalidTokenNonce`) or before the notes were presented (`authorisationRequired`), its notes lay on the
// transport or in the outlet (`sequenceError`), or it put these notes back (the error `noItems`).
fn is_between(ending: Ending) -> bool {
    matches!(
        ending,
        Ending::Ended(
            Code::InvalidTokenNonce
                | Code::AuthorisationRequired
                | Code::SequenceError
                | Code::CommandErrorCode
        )
    )
}

// Has what lies on the transport rejected: whether that was answered.
fn put_back<O: Doors, C: Clock>(doors: &mut O, clock: &C) -> bool {
    let Ok(mut link) = doors.dial(Service::Cash) else {
        return false;
    };
    // An acknowledge and a completion.
    link.give(REJECT.as_bytes()).is_ok()
        && is_answered(&mut link, clock)
        && is_answered(&mut link, clock)
}

fn is_answered<L: Link, C: Clock>(link: &mut L, clock: &C) -> bool {
    for _ in 0..LOOKS {
        match link.take() {
            Taking::Text(_) => return true,
            Taking::Quiet => clock.pause(),
            Taking::Closed | Taking::Failed | Taking::Memory => return false,
        }
    }
    false
}
