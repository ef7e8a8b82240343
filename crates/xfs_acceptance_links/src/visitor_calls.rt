//! Who is let in at the doors.

use crate::peers::{ANY, OpenDoors, SetClock, clock, connected, opened, writes};
use std::io::Read;
use std::net::TcpStream;
use xfs_server::{Door, Doors};
use xfs_sockets::{Origins, TcpDoors, is_own_host};

// The request of RFC 6455, section 1.3, without its Host.
const REQUEST: &[u8] =
    b"GET /xfs4iot/v1.0 HTTP/1.1\r\nUpgrade: websocket\r\nConnection: Upgrade\r\nSec-WebSocket-Key: dGhlIHNhbXBsZSBub25jZQ==\r\nSec-WebSocket-Version: 13\r\n";

const LISTED: &[u8] = b"null\nhttps://bank.example\r\n\nhttp://localhost:8000";

// So often it is looked for an answer.
const LOOKS: u32 = 1_000_000;

#[derive(Clone, Copy, PartialEq, Eq)]
enum Answer {
    LetIn,
    Forbidden,
    Other,
}

// The doors that let in programs, and pages of the listed origins.
fn listing<'a>(rt: &'a HostRuntime, clock: &'a SetClock) -> Option<OpenDoors<'a>> {
    TcpDoors::open(rt, rt.alloc(), clock, ANY, Origins::of(LISTED)).ok()
}

// A peer that has asked to be let in.
fn asking(rt: &HostRuntime, port: u16, fields: &str) -> Option<TcpStream> {
    let mut peer = connected(rt, port)?;
    let is_sent = writes(&mut peer, REQUEST)
        && writes(&mut peer, fields.as_bytes())
        && writes(&mut peer, b"\r\n")
        && peer.set_nonblocking(true).is_ok();
    if is_sent { Some(peer) } else { None }
}

// What a peer is told, where it is told anything.
fn told(peer: &mut TcpStream) -> Option<Answer> {
    let mut head = [0u8; 512];
    let count = peer.read(&mut head).ok()?;
    if head[..count].starts_with(b"HTTP/1.1 403 ") {
        Some(Answer::Forbidden)
    } else {
        Some(Answer::Other)
    }
}

// How a handshake with these fields is answered. The doors tell nothing of one that they refuse.
fn answer_to<O: Doors>(rt: &HostRuntime, port: u16, doors: &mut O, fields: &str) -> Answer {
    let Some(mut peer) = asking(rt, port, fields) else {
        return Answer::Other;
    };
    for _ in 0..LOOKS {
        match doors.next() {
            Door::Quiet => {}
            Door::Came(_, _) => return Answer::LetIn,
            Door::Failed | Door::Memory => return Answer::Other,
        }
        if let Some(answer) = told(&mut peer) {
            return answer;
        }
    }
    Answer::Other
}

// Whether each handshake is answered so; between their fields stand strokes.
fn are_answered<O: Doors>(
    rt: &HostRuntime,
    port: u16,
    doors: &mut O,
    handshakes: &str,
    answer: Answer,
) -> bool {
    for fields in handshakes.split('|') {
        if answer_to(rt, port, doors, fields) != answer {
            return false;
        }
    }
    true
}

// A program of this machine tells no origin.
const LISTED_ONES: &str =
    "Host: 127.0.0.1\r\nOrigin: null\r\n|Host: 127.0.0.1\r\nOrigin: https://bank.example\r\n|Host: 127.0.0.1\r\nOrigin: http://localhost:8000\r\n|Host: localhost\r\n";

const OTHER_ONES: &str =
    "Host: 127.0.0.1\r\nOrigin: \r\n|Host: 127.0.0.1\r\nOrigin: nul\r\n|Host: 127.0.0.1\r\nOrigin: https://bank.example.org\r\n|Host: 127.0.0.1\r\nOrigin: http://bank.example\r\n|Host: 127.0.0.1\r\nOrigin: http://localhost\r\n|Host: localhost\r\nOrigin: null\r\nOrigin: https://bank.example\r\n";

#[test]
fn a_page_is_let_in_where_its_origin_is_listed(rt: HostRuntime) {
    let clock = clock();
    let mut doors = listing(&rt, &clock).expect(&rt, "ports");
    let port = doors.ports().card;
    assert!(rt; are_answered(&rt, port, &mut doors, LISTED_ONES, Answer::LetIn));
    assert!(rt; are_answered(&rt, port, &mut doors, OTHER_ONES, Answer::Forbidden));
}

const PAGES: &str =
    "Host: 127.0.0.1\r\nOrigin: null\r\n|Host: 127.0.0.1\r\nOrigin: https://bank.example\r\n|Host: 127.0.0.1\r\nOrigin: http://127.0.0.1\r\n|Host: 127.0.0.1\r\nOrigin: \r\n";

#[test]
fn without_a_list_no_page_is_let_in(rt: HostRuntime) {
    let clock = clock();
    let mut doors = opened(&rt, &clock).expect(&rt, "ports");
    let port = doors.ports().card;
    assert!(rt; are_answered(&rt, port, &mut doors, PAGES, Answer::Forbidden));
    assert!(rt; are_answered(&rt, port, &mut doors, "Host: 127.0.0.1\r\n", Answer::LetIn));
}

const OTHER_HOSTS: &str =
    "|Host: bank.example\r\n|Host: bank.example\r\nOrigin: https://bank.example\r\n|Host: localhost\r\nHost: localhost\r\n";

#[test]
fn a_handshake_for_another_host_is_refused(rt: HostRuntime) {
    let clock = clock();
    let mut doors = listing(&rt, &clock).expect(&rt, "ports");
    let port = doors.ports().card;
    assert!(rt; are_answered(&rt, port, &mut doors, OTHER_HOSTS, Answer::Forbidden));
}

#[test]
fn this_machine_has_three_names(rt: HostRuntime) {
    for host in "127.0.0.1|localhost|LocalHost|[::1]|127.0.0.1:5849|[::1]:1".split('|') {
        assert!(rt; is_own_host(host.as_bytes()), "{host}");
    }
    for host in "|127.0.0.2|127.0.0.1.bank.example|localhost.|localhost:a|::1|x@localhost".split(
        '|',
    ) {
        assert!(rt; !is_own_host(host.as_bytes()), "{host}");
    }
}
