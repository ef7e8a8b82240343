//! Ports that are listened on, and the handshakes that are under way there.

use crate::socket::limits;
use crate::stream::PeerStream;
use crate::visitors::{Origins, Visitor};
use std::alloc::{AllocError, Global};
use std::io;
use std::net::{TcpListener, TcpStream};
use tungstenite::handshake::server::start;
use tungstenite::{Error, HandshakeError, MidHandshake, NoMask, ServerHandshake, WebSocket};
use xfs_base::{Moment, Service};
use xfs_server::Door;

// How many handshakes may be under way. The oldest goes first.
const MOST_WAITING: usize = 64;

// How long a handshake may last, from its accept on.
const LONGEST_MILLIS: u64 = 2_000;

type Handshake<'a> = MidHandshake<ServerHandshake<PeerStream, Visitor<'a>>>;

// What accept(2) answers where the listener itself is broken: EBADF, EFAULT, EINVAL, ENOTSOCK and
// EOPNOTSUPP. Everything else is the peer's, or passes.
const BROKEN: [i32; 5] = [9, 14, 22, 88, 95];

/// A port of a service.
#[derive(Drop)]
pub struct Port {
    pub service: Service,
    pub listener: TcpListener,
}

#[derive(Drop)]
struct Waiting<'a> {
    service: Service,
    since: Moment,
    handshake: Handshake<'a>,
}

/// How a round of a handshake ended.
#[derive(Drop)]
enum Shaken<'a> {
    Done(WebSocket<PeerStream, NoMask>),
    Goes(Handshake<'a>),
    Gone,
    Memory,
}

/// What letting peers in found, where it isn't done.
#[derive(Clone, Copy, Debug, PartialEq, Eq)]
enum EntryFault {
    Broken,
    Memory,
}

/// The ports, in the order in which they are looked at, and the handshakes, the oldest first.
#[derive(Drop)]
pub struct Entrance<'a> {
    ports: Vec<Port>,
    origins: Origins<'a>,
    waiting: Vec<Waiting<'a>>,
}

impl<'a> Entrance<'a> {
    /// The entrance at these ports, for programs of this machine and for pages of these origins. Memory is wanted for 64
    /// handshakes.
    pub fn new(
        alloc: Global,
        ports: Vec<Port>,
        origins: Origins<'a>,
    ) -> Result<Entrance<'a>, AllocError> {
        Ok(Entrance {
            ports,
            origins,
            waiting: Vec::with_capacity(alloc, MOST_WAITING)?,
        })
    }

    /// Listens no more, and lets go of the handshakes that are under way.
    pub fn close(&mut self) {
        self.ports.clear();
        self.waiting.clear();
    }

    /// Lets in one peer at each port and gives each handshake one round, up to the first that is done.
    pub fn next(&mut self, alloc: Global, now: Moment) -> Door<WebSocket<PeerStream, NoMask>> {
        match self.let_in(alloc, now) {
            Ok(()) => self.shake(now),
            Err(EntryFault::Broken) => Door::Failed,
            Err(EntryFault::Memory) => Door::Memory,
        }
    }

    fn let_in(&mut self, alloc: Global, now: Moment) -> Result<(), EntryFault> {
        let visitor = Visitor {
            alloc,
            origins: self.origins,
        };
        for port in &self.ports {
            match port.listener.accept() {
                Ok((stream, _)) => add(&mut self.waiting, visitor, port.service, now, stream)?,
                Err(error) if is_broken(&error) => return Err(EntryFault::Broken),
                Err(_) => {}
            }
        }
        Ok(())
    }

    // The handshakes that go on stay in their order.
    fn shake(&mut self, now: Moment) -> Door<WebSocket<PeerStream, NoMask>> {
        let mut place = 0;
        for _ in 0..self.waiting.len() {
            if place >= self.waiting.len() {
                break;
            }
            let Waiting {
                service,
                since,
                handshake,
            } = self.waiting.remove(place);
            match one_round(handshake) {
                Shaken::Done(socket) => return Door::Came(service, socket),
                Shaken::Goes(handshake) if now.0.saturating_sub(since.0) < LONGEST_MILLIS => {
                    let waiting = Waiting {
                        service,
                        since,
                        handshake,
                    };
                    if self.waiting.insert(place, waiting).is_err() {
                        return Door::Memory;
                    }
                    place += 1;
                }
                Shaken::Goes(_) | Shaken::Gone => {}
                Shaken::Memory => return Door::Memory,
            }
        }
        Door::Quiet
    }
}

// Begins a handshake that never blocks. A stream that can't be prepared is let go.
fn add<'a>(
    waiting: &mut Vec<Waiting<'a>>,
    visitor: Visitor<'a>,
    service: Service,
    since: Moment,
    stream: TcpStream,
) -> Result<(), EntryFault> {
    let Ok(mut stream) = PeerStream::new(stream) else {
        return Ok(());
    };
    if stream.set_waits(false).is_err() {
        return Ok(());
    }
    if waiting.len() >= MOST_WAITING {
        waiting.remove(0);
    }
    let handshake = start(visitor.alloc, stream, visitor, Some(limits()));
    match waiting.push(Waiting {
        service,
        since,
        handshake,
    }) {
        Ok(()) => Ok(()),
        Err(_) => Err(EntryFault::Memory),
    }
}

fn one_round(handshake: Handshake<'_>) -> Shaken<'_> {
    match handshake.handshake() {
        Ok(socket) => Shaken::Done(socket),
        Err(HandshakeError::Interrupted(handshake)) => Shaken::Goes(handshake),
        Err(HandshakeError::Failure(Error::OutOfMemory)) => Shaken::Memory,
        Err(HandshakeError::Failure(_)) => Shaken::Gone,
    }
}

/// Whether an accept failed because of the listener itself.
pub fn is_broken(error: &io::Error) -> bool {
    match error.raw_os_error() {
        Some(code) => BROKEN.contains(&code),
        None => false,
    }
}
