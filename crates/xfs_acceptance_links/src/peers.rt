//! Doors at ports that the system chooses, peers that write their own bytes, and the few calls of each as the tests ask them.

use std::io::{Read, Write};
use std::net::TcpStream;
use std::sync::atomic::{AtomicU64, Ordering};
use xfs_base::{Clock, Moment, Service};
use xfs_server::{Door, Doors, Link, Taking};
use xfs_sockets::{Origins, Ports, SocketLink, TcpDoors};

/// The system chooses the ports.
pub const ANY: Ports = Ports {
    publisher: 0,
    card: 0,
    keys: 0,
    cash: 0,
};

/// The key and its answer are those of RFC 6455, section 1.3.
pub const REQUEST: &[u8] =
    b"GET /xfs4iot/v1.0 HTTP/1.1\r\nHost: localhost\r\nUpgrade: websocket\r\nConnection: Upgrade\r\nSec-WebSocket-Key: dGhlIHNhbXBsZSBub25jZQ==\r\nSec-WebSocket-Version: 13\r\n\r\n";

const ACCEPTED: &str = "s3pPLMBiTxaQ9kYGzzhZRbK+xOo=";

/// Doors and links of a test.
pub type OpenDoors<'a> = TcpDoors<'a, HostRuntime, SetClock>;

pub type OpenLink<'a> = SocketLink<'a, &'a HostRuntime, SetClock>;

/// A clock that a test sets.
#[derive(Drop)]
pub struct SetClock {
    millis: AtomicU64,
}

impl Clock for SetClock {
    ghost use Rattle.std.specs.Prelude.{◌≤◌};

    ghost tells = { λ _ moment. moment.0 ≤ 1000000 };

    fn now(&self) -> Moment {
        Moment(self.millis.load(Ordering::SeqCst).min(1_000_000))
    }

    fn pause(&self) {}
}

impl SetClock {
    pub fn set(&self, millis: u64) {
        self.millis.store(millis, Ordering::SeqCst);
    }
}

pub fn clock() -> SetClock {
    SetClock {
        millis: AtomicU64::new(0),
    }
}

/// Doors to which programs of this machine come, and no page.
pub fn opened<'a>(rt: &'a HostRuntime, clock: &'a SetClock) -> Option<OpenDoors<'a>> {
    TcpDoors::open(rt, rt.alloc(), clock, ANY, Origins::none()).ok()
}

/// Doors that only dial.
pub fn outward<'a>(
    rt: &'a HostRuntime,
    clock: &'a SetClock,
    ports: Ports,
) -> Option<OpenDoors<'a>> {
    TcpDoors::outward(rt, rt.alloc(), clock, ports).ok()
}

/// Whether nobody has come and the doors have not failed.
pub fn nobody_comes<O: Doors>(doors: &mut O) -> bool {
    matches!(doors.next(), Door::Quiet)
}

/// The next connection, if one comes soon.
pub fn next_link<O: Doors>(doors: &mut O) -> Option<(Service, O::Link)> {
    for _ in 0..10_000_000 {
        match doors.next() {
            Door::Came(service, link) => return Some((service, link)),
            Door::Quiet => {}
            Door::Failed | Door::Memory => return None,
        }
    }
    None
}

/// What a link finds, if it finds something soon.
pub fn next_news<L: Link>(link: &mut L) -> Taking {
    for _ in 0..200 {
        match link.take() {
            Taking::Quiet => {}
            other => return other,
        }
    }
    Taking::Quiet
}

/// Whether nothing has come, and the link has not failed.
pub fn is_quiet<L: Link>(link: &mut L) -> bool {
    matches!(link.take(), Taking::Quiet)
}

pub fn is_closed<L: Link>(link: &mut L) -> bool {
    matches!(link.take(), Taking::Closed)
}

pub fn has_failed<L: Link>(link: &mut L) -> bool {
    matches!(link.take(), Taking::Failed)
}

pub fn gives<L: Link>(link: &mut L, text: &[u8]) -> bool {
    link.give(text).is_ok()
}

/// A stream to a port of this machine.
pub fn connected(rt: &HostRuntime, port: u16) -> Option<TcpStream> {
    TcpStream::connect(rt, ("127.0.0.1", port)).ok()
}

pub fn writes(peer: &mut TcpStream, bytes: &[u8]) -> bool {
    peer.write_all(bytes).is_ok()
}

/// Whether the peer reads these bytes next.
pub fn reads(peer: &mut TcpStream, expected: &[u8]) -> bool {
    let mut bytes = [0u8; 64];
    match bytes.get_mut(..expected.len()) {
        Some(part) => peer.read_exact(part).is_ok() && *part == *expected,
        None => false,
    }
}

// Whether a peer reads that its handshake was accepted.
fn is_accepted(peer: &mut TcpStream) -> bool {
    let mut head = [0u8; 512];
    match peer.read(&mut head) {
        Ok(count) => is_acceptance(&head[..count]),
        Err(_) => false,
    }
}

fn is_acceptance(head: &[u8]) -> bool {
    match std::str::from_utf8(head) {
        Ok(text) => text.starts_with("HTTP/1.1 101 ") && text.contains(ACCEPTED),
        Err(_) => false,
    }
}

// The next connection, where it is one to the card reader.
fn next_to_the_card_reader<O: Doors>(doors: &mut O) -> Option<O::Link> {
    match next_link(doors)? {
        (Service::Card, link) => Some(link),
        _ => None,
    }
}

/// A peer that writes its own bytes, and the link to it.
pub fn peer_of<'a>(
    rt: &'a HostRuntime,
    doors: &mut OpenDoors<'a>,
) -> Option<(OpenLink<'a>, TcpStream)> {
    let mut peer = connected(rt, doors.ports().card)?;
    if !writes(&mut peer, REQUEST) {
        return None;
    }
    let link = next_to_the_card_reader(doors)?;
    if is_accepted(&mut peer) {
        Some((link, peer))
    } else {
        None
    }
}

/// The one peer of doors that are then closed, and the link to it.
pub fn only_peer<'a>(
    rt: &'a HostRuntime,
    clock: &'a SetClock,
) -> Option<(OpenLink<'a>, TcpStream)> {
    let mut doors = opened(rt, clock)?;
    peer_of(rt, &mut doors)
}
