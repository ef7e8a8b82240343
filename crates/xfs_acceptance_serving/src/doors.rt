//! Doors to which clients come that stay until they have heard what they wait for.

use crate::clients::client_of;
use crate::scene::{LOOKS, Scene};
use crate::words::{cut_at, number, service_of};
use std::alloc::Global;
use std::sync::atomic::Ordering;
use xfs_base::{Bytes, Clock, Memory, Service};
use xfs_server::{DialFault, Door, Doors, GiveFault, Link, Taking};

/// A client's link, which is closed once the client heard all its texts.
pub struct Patient<'a, C: Clock> {
    text: Option<Bytes>,
    // The texts that it is still to hear, each on a line.
    hears: &'static str,
    // Which take fails, from 1.
    failing: u64,
    takes: u64,
    closed: bool,
    quiets: u64,
    faults: u64,
    scene: &'a Scene<'a, C>,
}

impl<'a, C: Clock> Drop for Patient<'a, C> {
    fn drop(self) {
        let Patient {
            text: _,
            hears: _,
            failing: _,
            takes: _,
            closed: _,
            quiets: _,
            faults: _,
            scene,
        } = self;
        scene.let_go.fetch_add(1, Ordering::SeqCst);
    }
}

impl<'a, C: Clock> Link for Patient<'a, C> {
    ghost use Rattle.std.specs.Prelude.{None};

    ghost log = { λ l. record { coming = None; taken = None; sent = None; closed = l.closed; quiets = l.quiets; faults = l.faults } };

    fn take(&mut self) -> Taking {
        self.takes = self.takes.saturating_add(1);
        if self.failing == self.takes {
            self.faults = self.faults.saturating_add(1);
            return Taking::Failed;
        }
        if let Some(text) = self.text.take() {
            return Taking::Text(text);
        }
        let waits = !self.hears.is_empty();
        if waits && self.quiets < LOOKS {
            self.quiets = self.quiets.saturating_add(1);
            self.scene.clock.pause();
            return Taking::Quiet;
        }
        if waits {
            self.scene.amiss.store(true, Ordering::SeqCst);
        }
        self.closed = true;
        Taking::Closed
    }

    fn give(&mut self, text: &[u8]) -> Result<(), GiveFault> {
        let (expected, behind) = cut_at(self.hears, "\n");
        if !self.hears.is_empty() && text == expected.as_bytes() {
            self.hears = behind;
        } else {
            self.scene.amiss.store(true, Ordering::SeqCst);
        }
        if self.hears.is_empty() {
            self.scene.answered.fetch_add(1, Ordering::SeqCst);
        }
        Ok(())
    }
}

/// Doors to which the clients of these letters come. Once none is left they fail, or nobody comes.
#[derive(Drop)]
pub struct PatientDoors<'a, C: Clock> {
    alloc: Global,
    letters: &'a str,
    at: usize,
    fails: bool,
    came: u64,
    dials: u64,
    last_dialled: Option<Service>,
    quiets: u64,
    faults: u64,
    scene: &'a Scene<'a, C>,
}

impl<'a, C: Clock> PatientDoors<'a, C> {
    pub fn new(
        alloc: Global,
        letters: &'a str,
        fails: bool,
        scene: &'a Scene<'a, C>,
    ) -> PatientDoors<'a, C> {
        PatientDoors {
            alloc,
            letters,
            at: 0,
            fails,
            came: 0,
            dials: 0,
            last_dialled: None,
            quiets: 0,
            faults: 0,
            scene,
        }
    }

    fn link_of(&self, head: &str, texts: &'static str) -> Result<Patient<'a, C>, Memory> {
        let (says, hears) = cut_at(texts, "\n");
        let text = Bytes::new(Vec::from_slice(self.alloc, says.as_bytes())?);
        Ok(Patient {
            text: Some(text),
            hears,
            failing: number(head, 1),
            takes: 0,
            closed: false,
            quiets: 0,
            faults: 0,
            scene: self.scene,
        })
    }
}

impl<'a, C: Clock + Sync> Doors for PatientDoors<'a, C> {
    type Link = Patient<'a, C>;

    ghost log = { λ d. record { came = d.came; dials = d.dials; last_dialled = d.last_dialled; quiets = d.quiets; faults = d.faults } };

    fn next(&mut self) -> Door<Patient<'a, C>> {
        let Some(letter) = self.letters.as_bytes().get(self.at) else {
            if self.fails || self.quiets >= LOOKS {
                self.faults = self.faults.saturating_add(1);
                return Door::Failed;
            }
            self.quiets = self.quiets.saturating_add(1);
            return Door::Quiet;
        };
        let (head, texts) = client_of(*letter);
        match self.link_of(head, texts) {
            Ok(link) => {
                self.at += 1;
                self.came = self.came.saturating_add(1);
                Door::Came(service_of(head), link)
            }
            Err(_) => Door::Memory,
        }
    }

    fn dial(&mut self, service: Service) -> Result<Patient<'a, C>, DialFault> {
        self.dials = self.dials.saturating_add(1);
        self.last_dialled = Some(service);
        self.faults = self.faults.saturating_add(1);
        Err(DialFault::Failed)
    }
}
