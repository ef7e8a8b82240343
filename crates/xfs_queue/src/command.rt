ghost use Rattle.std.specs.Prelude.{◌≡◌, ◌≤◌};
ghost use Rattle.xfs_base.specs.declared.moment.TheConstants.{LAST_MOMENT};
ghost use Rattle.xfs_queue.specs.Commands.{is_ticket, ticket_of, is_at, is_of, is_waiting, is_running, is_ready, is_on, waits_on, has_deadline, deadline, is_due, names};
ghost use Rattle.xfs_queue.specs.Deadlines.{entry};
ghost use Rattle.xfs_queue.specs.Queue.{is_named};

use crate::deadlines::Entry;
use thiserror::Error;
use xfs_base::{ClientId, Moment, Numbers};

/// The lines of a service: nonce commands, and those that use the device.
#[derive(Clone, Copy, Debug, PartialEq, Eq)]
pub enum Line {
    Nonce,
    Device,
}

/// How far a pending command is. A ready one has its result and waits to be answered.
#[derive(Clone, Copy, Debug, PartialEq, Eq)]
pub enum Stage {
    Waiting,
    Running,
    Ready,
}

/// The name of a pending command: no two that are pending have the same client and id.
#[derive(Clone, Copy, Debug, PartialEq, Eq)]
pub struct Ticket {
    pub client: ClientId,
    pub id: u64,
}

/// A pending command. The moment at which it was accepted and its timeout are in milliseconds; a
/// timeout of 0 is none. A marked one was canceled, or its client has left.
#[derive(Drop)]
pub struct Command<J> {
    pub client: ClientId,
    pub id: u64,
    pub line: Line,
    pub accepted: Moment,
    pub timeout: u32,
    pub marked: bool,
    pub stage: Stage,
    pub job: J,
}

/// A command that is no longer pending.
#[derive(Drop)]
pub struct Pending<J> {
    pub client: ClientId,
    pub id: u64,
    pub job: J,
}

/// The request ids that a cancel names: all of a client's, or these.
#[derive(Debug, Drop)]
pub enum Ids {
    All,
    These(Numbers),
}

/// Why a command was not taken.
#[derive(Clone, Copy, Debug, PartialEq, Eq, Error)]
pub enum OfferFault {
    /// The client has a command with this id pending.
    #[error("the request id is pending")]
    Busy,
    /// The client has 32 commands pending, or the service 256.
    #[error("too many commands are pending")]
    TooMany,
    #[error("out of memory")]
    Memory,
}

impl Ticket {
    pub(crate) fn is(self, other: Ticket) -> bool
        ensures { result ≡ is_ticket self other }
    {
        other.client.0 == self.client.0 && other.id == self.id
    }
}

impl<J> Command<J> {
    /// The client and the request id, which together name the command.
    pub fn ticket(&self) -> Ticket
        ensures { result ≡ ticket_of self.now }
    {
        Ticket {
            client: self.client,
            id: self.id,
        }
    }

    pub(crate) fn entry(&self) -> Option<Entry>
        requires { self.now.accepted.0 ≤ LAST_MOMENT }
        ensures { result ≡ entry self.now }
    {
        if !self.has_deadline() {
            return None;
        }
        Some(Entry {
            deadline: self.deadline(),
            ticket: self.ticket(),
        })
    }

    pub(crate) fn is_at(&self, ticket: Ticket) -> bool
        ensures { result ≡ is_at ticket self.now }
    {
        ticket.is(self.ticket())
    }

    pub(crate) fn is_of(&self, client: ClientId) -> bool
        ensures { result ≡ is_of client self.now }
    {
        self.client.0 == client.0
    }

    pub(crate) fn is_named(&self, client: ClientId, ids: &Ids) -> bool
        ensures { result ≡ is_named client ids.now self.now }
    {
        self.is_of(client) && ids.names(self.id)
    }

    pub(crate) fn is_waiting(&self) -> bool
        ensures { result ≡ is_waiting self.now.stage }
    {
        matches!(self.stage, Stage::Waiting)
    }

    pub(crate) fn is_running(&self) -> bool
        ensures { result ≡ is_running self.now.stage }
    {
        matches!(self.stage, Stage::Running)
    }

    pub(crate) fn is_ready(&self) -> bool
        ensures { result ≡ is_ready self.now.stage }
    {
        matches!(self.stage, Stage::Ready)
    }

    pub(crate) fn waits_on(&self, line: Line) -> bool
        ensures { result ≡ waits_on line self.now }
    {
        self.is_waiting() && is_same(self.line, line)
    }

    pub(crate) fn has_deadline(&self) -> bool
        ensures { result ≡ has_deadline self.now }
    {
        self.waits_on(Line::Device) && self.timeout != 0
    }

    pub(crate) fn deadline(&self) -> u64
        requires { self.now.accepted.0 ≤ LAST_MOMENT }
        ensures { result ≡ deadline self.now }
    {
        self.accepted.0 + u64::from(self.timeout)
    }

    pub(crate) fn is_due(&self, now: Moment) -> bool
        ensures { result ≡ is_due now self.now }
    {
        self.timeout != 0
            && self.accepted.0 <= now.0
            && now.0 - self.accepted.0 >= u64::from(self.timeout)
    }
}

impl Ids {
    pub(crate) fn names(&self, id: u64) -> bool
        ensures { result ≡ names self.now id }
    {
        match self {
            Ids::All => true,
            Ids::These(ids) => ids.list().contains(&id),
        }
    }
}

fn is_same(a: Line, b: Line) -> bool
    ensures { result ≡ is_on a b }
{
    match a {
        Line::Nonce => matches!(b, Line::Nonce),
        Line::Device => matches!(b, Line::Device),
    }
}
