ghost use Rattle.std.specs.Prelude.{◌≡◌, ◌≤◌, ◌==◌, ◌++◌, ◌∷◌, [], List, All, OnOk, OnErr, MatchOption, Contains, filter, not};
ghost use Rattle.std.specs.List.Sorted.{IsNonDecreasingBy};
ghost use Rattle.xfs_queue.specs.Commands.{is_ticket};
ghost use Rattle.xfs_queue.specs.Deadlines.{IsIndex, IsPlace};
ghost use Rattle.xfs_queue.specs.declared.deadlines.Entry.{Entry};

use crate::Ticket;
use std::alloc::{AllocError, Global};
use std::marker::Model;
use xfs_base::ClientId;

/// A waiting command of the device line, and the moment at which it is due.
#[derive(Clone, Copy, Debug, PartialEq, Eq)]
pub(crate) struct Entry {
    pub(crate) deadline: u64,
    pub(crate) ticket: Ticket,
}

/// The deadlines of waiting commands, the least first; those that are equal in order of arrival.
#[derive(Drop)]
pub(crate) struct Deadlines {
    entries: Vec<Entry>,
}

impl Model for Deadlines {
    ghost use Rattle.std.specs.Prelude.{ℕ, List};
    ghost use Rattle.std.specs.List.Sorted.{IsNonDecreasingBy};
    ghost use Rattle.xfs_queue.specs.declared.deadlines.Entry.{Entry};

    ghost Value = { List Entry };

    ghost view = { λ d. d.entries.items };

    ghost invariant = { λ d. IsNonDecreasingBy (λ e. e.deadline) d.entries.items };
}

impl Deadlines {
    pub(crate) fn new(alloc: Global) -> Deadlines
        ensures { result ≡ [] }
    {
        Deadlines {
            entries: Vec::new(alloc),
        }
    }

    /// The entry with the least deadline.
    pub(crate) fn first(&self) -> Option<Entry>
        ensures { MatchOption result (self.now ≡ []) (λ e. Contains self.now e × All (λ f. e.deadline ≤ f.deadline) self.now) }
    {
        self.entries.first().copied()
    }

    pub(crate) fn add(&mut self, entry: Entry) -> Result<(), AllocError>
        ensures ok { OnOk result ((es : List Entry) → IsIndex self.old es → IsIndex self.new (es ++ entry ∷ [])) }
        ensures err { OnErr result (self.new ≡ self.old) }
    {
        let at = place_of(&self.entries, entry.deadline);
        self.entries.insert(at, entry)?;
        Ok(())
    }

    pub(crate) fn remove(&mut self, ticket: Ticket)
        ensures { self.new ≡ filter (λ e. not (is_ticket ticket e.ticket)) self.old }
    {
        self.entries.retain(|e| e.ticket.client.0 != ticket.client.0 || e.ticket.id != ticket.id);
    }

    pub(crate) fn remove_client(&mut self, client: ClientId)
        ensures { self.new ≡ filter (λ e. not (e.ticket.client.0 == client.0)) self.old }
    {
        self.entries.retain(|e| !(e.ticket.client.0 == client.0));
    }
}

// behind the deadlines that are no later
fn place_of(entries: &[Entry], deadline: u64) -> usize
    requires { IsNonDecreasingBy (λ e. e.deadline) entries.now }
    ensures { IsPlace entries.now deadline result }
{
    entries.partition_point(|e| e.deadline <= deadline)
}
