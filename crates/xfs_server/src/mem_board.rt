ghost use Rattle.std.specs.Prelude.{◌≡◌, ◌++◌, map, Some, IfOk, OnOk};
ghost use Rattle.xfs_server.specs.Memories.{begun_board, joined};

use crate::mem_link::copy_of;
use crate::{Board, Work2};
use std::alloc::Global;
use std::marker::Model;
use std::vec::IntoIter;
use xfs_base::{Bytes, Memory};

/// A board in memory. It keeps the texts posted, and a copy of the frames, by which it tells which
/// were handed over.
#[derive(Drop)]
pub struct MemBoard {
    alloc: Global,
    texts: Vec<Bytes>,
    lists: IntoIter<Vec<Bytes>>,
    copy: Vec<Bytes>,
    from: usize,
    to: usize,
    posts: u64,
    turns: u64,
    fetches: u64,
}

impl Model for MemBoard {
    ghost use Rattle.std.specs.Prelude.{◌≡◌, ◌≤◌, Some, take, drop, length, map};
    ghost use Rattle.std.specs.Vec.Iter.{into_iter_items};
    ghost use Rattle.xfs_server.specs.Boards.{BoardLog};
    ghost use Rattle.xfs_server.specs.Memories.{BoardInMemory, joined};

    ghost Value = { BoardInMemory };

    ghost view = { λ b. record {
      log = record { texts = Some b.texts.items; handed = Some (take b.to b.copy.items); latest = Some (drop b.from (take b.to b.copy.items)); posts = b.posts; turns = b.turns; fetches = b.fetches };
      coming = map (λ list. list.items) (into_iter_items b.lists);
    } };

    ghost invariant = { λ b. (b.from ≤ b.to) × (b.to ≤ length b.copy.items) × (drop b.to b.copy.items ≡ joined (map (λ list. list.items) (into_iter_items b.lists))) };
}

impl MemBoard {
    /// A board whose k-th call of `frames` hands over the k-th list, and none after the last.
    pub fn new(alloc: Global, frames: Vec<Vec<Bytes>>) -> Result<MemBoard, Memory>
        ensures { IfOk result (λ board. board ≡ begun_board (map (λ list. list.items) frames.items)) }
    {
        let copy = all_of(alloc, &frames)?;
        Ok(MemBoard {
            alloc,
            texts: Vec::new(alloc),
            lists: frames.into_iter(),
            copy,
            from: 0,
            to: 0,
            posts: 0,
            turns: 0,
            fetches: 0,
        })
    }

    /// The texts posted.
    pub fn texts(&self) -> &[Bytes]
        ensures { self.now.log.texts ≡ Some result.now }
    {
        &self.texts
    }
}

impl Board for MemBoard {
    ghost use Rattle.std.specs.Prelude.{◌≡◌, [], drop, slice_get, Ok, OnOk};
    ghost use Rattle.std.specs.Option.{unwrap_or};
    ghost use Rattle.xfs_server.specs.Boards.{after_post, after_turn, after_fetch};
    ghost use Rattle.xfs_server.specs.declared.board.Work2.TheVariants as Work2;

    ghost log = { λ b. b.log };

    fn post(&mut self, text: &[u8]) -> Result<(), Memory>
        ensures log { self.new.log ≡ after_post self.old.log text.now result }
        ensures same { self.new.coming ≡ self.old.coming }
    {
        self.posts = self.posts.saturating_add(1);
        let text = Vec::from_slice(self.alloc, text)?;
        self.texts.push(Bytes::new(text))?;
        Ok(())
    }

    fn turn(&mut self) -> Result<Work2, Memory>
        ensures log { self.new.log ≡ after_turn self.old.log }
        ensures idle { result ≡ Ok Work2.Idle }
        ensures same { self.new.coming ≡ self.old.coming }
    {
        self.turns = self.turns.saturating_add(1);
        Ok(Work2::Idle)
    }

    fn frames(&mut self) -> Vec<Bytes>
        ensures log { self.new.log ≡ after_fetch self.old.log result.items }
        ensures handed { result.items ≡ unwrap_or (slice_get self.old.coming 0) [] }
        ensures rest { self.new.coming ≡ drop 1 self.old.coming }
    {
        self.fetches = self.fetches.saturating_add(1);
        self.from = self.to;
        match self.lists.next() {
            Some(list) => {
                self.to += list.len();
                list
            }
            None => Vec::new(self.alloc),
        }
    }
}

// A copy of all the frames, in order.
fn all_of(alloc: Global, lists: &[Vec<Bytes>]) -> Result<Vec<Bytes>, Memory>
    ensures { IfOk result (λ copy. copy.items ≡ joined (map (λ list. list.items) lists.now)) }
{
    let mut copy = Vec::new(alloc);
    for list in lists {
        append(alloc, &mut copy, list)?;
    }
    Ok(copy)
}

fn append(alloc: Global, copy: &mut Vec<Bytes>, list: &[Bytes]) -> Result<(), Memory>
    ensures { OnOk result (copy.new.items ≡ copy.old.items ++ list.now) }
{
    for bytes in list {
        copy.push(copy_of(alloc, bytes)?)?;
    }
    Ok(())
}
