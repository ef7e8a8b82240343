ghost use Rattle.std.specs.Prelude.{◌≡◌};

use std::alloc::Global;
use std::mem;
use xfs_base::{Bytes, Memory};
use xfs_server::{Board, Work2};

/// A board that hands each text back as a frame.
#[derive(Drop)]
pub struct EchoBoard {
    alloc: Global,
    waiting: Vec<Bytes>,
    posts: u64,
    turns: u64,
    fetches: u64,
}

impl EchoBoard {
    pub fn new(alloc: Global) -> EchoBoard {
        EchoBoard {
            alloc,
            waiting: Vec::new(alloc),
            posts: 0,
            turns: 0,
            fetches: 0,
        }
    }

    /// How many texts were posted.
    pub fn posts(&self) -> u64
        ensures { result ≡ self.now.posts }
    {
        self.posts
    }
}

impl Board for EchoBoard {
    ghost use Rattle.std.specs.Prelude.{None};

    ghost log = { λ b. record { texts = None; handed = None; latest = None; posts = b.posts; turns = b.turns; fetches = b.fetches } };

    fn post(&mut self, text: &[u8]) -> Result<(), Memory> {
        self.posts = self.posts.saturating_add(1);
        let text = Vec::from_slice(self.alloc, text)?;
        self.waiting.push(Bytes::new(text))?;
        Ok(())
    }

    fn turn(&mut self) -> Result<Work2, Memory> {
        self.turns = self.turns.saturating_add(1);
        Ok(Work2::Idle)
    }

    fn frames(&mut self) -> Vec<Bytes> {
        self.fetches = self.fetches.saturating_add(1);
        mem::replace(&mut self.waiting, Vec::new(self.alloc))
    }
}
