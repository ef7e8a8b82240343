//! Links and their peers, byte by byte, and handshakes that are cut or slow.

use crate::peers::{
    ANY, OpenDoors, OpenLink, REQUEST, SetClock, clock, connected, gives, has_failed, is_closed,
    is_quiet, next_link, next_news, nobody_comes, only_peer, opened, outward, peer_of, reads,
    writes,
};
use std::alloc::{AllocError, Global};
use std::io::{ErrorKind, Read};
use std::net::{Shutdown, TcpListener, TcpStream};
use std::os::fd::OwnedFd;
use std::test::Fail;
use std::thread::Threads;
use std::{io, thread};
use xfs_base::{Moment, Service};
use xfs_server::{DialFault, Door, Doors, GiveFault, Link, Taking};
use xfs_sockets::{Entrance, Origins, Port, Ports, is_broken};

// "Hello", masked and not, as RFC 6455, section 5.7, has them.
const MASKED: &[u8] = b"\x81\x85\x37\xfa\x21\x3d\x7f\x9f\x4d\x51\x58";

const UNMASKED: &[u8] = b"\x81\x05Hello";

// What a peer writes, piece by piece; the text that the link then finds, or that its peer has closed or failed; and what the
// peer then reads. The bytes are hexadecimal, and `-` stands for none. In this order: a text; a ping, and then a text; a text in
// two fragments, with a ping between; a binary message that isn't UTF-8; a close with the code 1000; a reserved bit; a text
// that isn't masked; a frame of 2 MiB; a text that isn't UTF-8; and a continuation of nothing.
const CASES: &str = "818537fa213d7f9f4d5158 => 48656c6c6f => -
8982000000006162 818537fa213d7f9f4d5158 => 48656c6c6f => 8a026162
01830000000048656c 898000000000 8082000000006c6f => 48656c6c6f => 8a00
828100000000ff => ff => -
88820000000003e8 => closed => 880203e8
c1810000000061 => failed => -
810548656c6c6f => failed => -
81ff000000000020000000000000 => failed => -
818100000000ff => failed => -
80810000000061 => failed => -";

// Whether these bytes are what the digits say.
fn is_hex(alloc: Global, bytes: &[u8], digits: &str) -> bool {
    match hex::decode(alloc, digits) {
        Ok(expected) => bytes == expected.as_slice(),
        Err(_) => false,
    }
}

fn writes_hex(alloc: Global, peer: &mut TcpStream, digits: &str) -> bool {
    match hex::decode(alloc, digits) {
        Ok(bytes) => writes(peer, &bytes),
        Err(_) => false,
    }
}

fn reads_hex(alloc: Global, peer: &mut TcpStream, digits: &str) -> bool {
    match hex::decode(alloc, digits) {
        Ok(bytes) => reads(peer, &bytes),
        Err(_) => digits == "-",
    }
}

// Whether the peer writes these pieces, and the link finds nothing before the last.
fn comes_in_pieces<L: Link>(
    alloc: Global,
    link: &mut L,
    peer: &mut TcpStream,
    pieces: &str,
) -> bool {
    for (place, piece) in pieces.split(' ').enumerate() {
        if place > 0 && !is_quiet(link) {
            return false;
        }
        if !writes_hex(alloc, peer, piece) {
            return false;
        }
    }
    true
}

fn finds<L: Link>(alloc: Global, link: &mut L, expected: &str) -> bool {
    match next_news(link) {
        Taking::Text(text) => is_hex(alloc, text.list(), expected),
        Taking::Closed => expected == "closed" && is_closed(link),
        Taking::Failed => expected == "failed",
        Taking::Quiet | Taking::Memory => false,
    }
}

// Whether all goes as a row says.
fn goes<L: Link>(alloc: Global, link: &mut L, peer: &mut TcpStream, row: &str) -> bool {
    let Some((pieces, found)) = row.split_once(" => ") else {
        return false;
    };
    let Some((found, reply)) = found.split_once(" => ") else {
        return false;
    };
    comes_in_pieces(alloc, link, peer, pieces)
        && finds(alloc, link, found)
        && reads_hex(alloc, peer, reply)
}

#[test]
fn a_link_finds_what_its_peer_writes(rt: HostRuntime) {
    let clock = clock();
    let mut doors = opened(&rt, &clock).expect(&rt, "ports");
    for row in CASES.split('\n') {
        let (mut link, mut peer) = peer_of(&rt, &mut doors).expect(&rt, "a connection");
        assert!(rt; goes(rt.alloc(), &mut link, &mut peer, row), "{row}");
    }
}

fn finds_hello<L: Link>(link: &mut L) -> bool {
    match next_news(link) {
        Taking::Text(text) => text.list() == b"Hello".as_slice(),
        _ => false,
    }
}

// Whether the peer is given a text that it reads.
fn answers_hello<L: Link>(link: &mut L, peer: &mut TcpStream) -> bool {
    gives(link, b"Hello") && is_quiet(link) && reads(peer, UNMASKED)
}

// Whether a text is found and answered wherever its frame is cut.
fn finds_each_cut<L: Link>(link: &mut L, peer: &mut TcpStream) -> bool {
    for cut in 1..MASKED.len() {
        let (front, back) = MASKED.split_at(cut);
        let is_found = writes(peer, front)
            && is_quiet(link)
            && writes(peer, back)
            && finds_hello(link)
            && answers_hello(link, peer);
        if !is_found {
            return false;
        }
    }
    true
}

fn finds_70_000_bytes<L: Link>(link: &mut L, peer: &mut TcpStream) -> bool {
    writes(peer, b"\x81\xff\0\0\0\0\0\x01\x11\x70\0\0\0\0")
        && writes(peer, &[0x61u8; 70_000])
        && text_len(next_news(link)) == Some(70_000)
}

fn reads_20_000_letters(peer: &mut TcpStream) -> bool {
    let mut frame = [0u8; 20_000];
    peer.read_exact(&mut frame).is_ok() && frame == [0x61u8; 20_000]
}

fn gives_20_000_bytes<L: Link>(link: &mut L, peer: &mut TcpStream) -> bool {
    gives(link, &[0x61u8; 20_000])
        && is_quiet(link)
        && reads(peer, b"\x81\x7e\x4e\x20")
        && reads_20_000_letters(peer)
}

#[test]
fn a_text_is_found_wherever_its_frame_is_cut_and_however_long_it_is(rt: HostRuntime) {
    let clock = clock();
    let (mut link, mut peer) = only_peer(&rt, &clock).expect(&rt, "a connection");
    assert!(rt; finds_each_cut(&mut link, &mut peer));
    assert!(rt; finds_70_000_bytes(&mut link, &mut peer));
    assert!(rt; gives_20_000_bytes(&mut link, &mut peer));
}

#[test]
fn each_service_has_its_port(rt: HostRuntime) {
    assert_eq!(rt; Ports::usual().of(Service::Publisher), 5846);
    assert_eq!(rt; Ports::usual().of(Service::Card), 5847);
    assert_eq!(rt; Ports::usual().of(Service::Keys), 5848);
    assert_eq!(rt; Ports::usual().of(Service::Cash), 5849);
}

// Whether a link has failed once its peer wrote the front of a frame and no more, and finds a whole one before.
fn fails_behind<L: Link>(link: &mut L, peer: &mut TcpStream, front: &[u8]) -> bool {
    writes(peer, front)
        && peer.shutdown(Shutdown::Write).is_ok()
        && (front.len() < MASKED.len() || finds_hello(link))
        && has_failed(link)
}

#[test]
fn a_stream_that_ends_without_a_close_has_failed(rt: HostRuntime) {
    let clock = clock();
    let mut doors = opened(&rt, &clock).expect(&rt, "ports");
    for cut in [0, 1, 6, MASKED.len()] {
        let (mut link, mut peer) = peer_of(&rt, &mut doors).expect(&rt, "a connection");
        assert!(rt;
            fails_behind(&mut link, &mut peer, &MASKED[..cut]),
            "cut {cut}"
        );
    }
}

// How a link ends that is given text after text.
fn end_of_giving<L: Link>(link: &mut L) -> Result<(), GiveFault> {
    let text = [0x61u8; 60_000];
    for _ in 0..10_000 {
        link.give(&text)?;
    }
    Ok(())
}

#[test]
fn a_peer_that_does_not_read_is_a_fault_after_ten_seconds(rt: HostRuntime) {
    let clock = clock();
    let (mut link, peer) = only_peer(&rt, &clock).expect(&rt, "a connection");
    assert!(rt; end_of_giving(&mut link) == Err(GiveFault::Failed));
    assert!(rt; peer.shutdown(Shutdown::Both).is_ok());
}

const QUARTER: usize = REQUEST.len() / 4;

// Whether nobody comes by a handshake that ends behind its front.
fn cut_handshakes_come_to_nothing<O: Doors>(rt: &HostRuntime, port: u16, doors: &mut O) -> bool {
    for cut in 0..REQUEST.len() {
        let Some(mut peer) = connected(rt, port) else {
            return false;
        };
        if !writes(&mut peer, &REQUEST[..cut]) || !nobody_comes(doors) {
            return false;
        }
    }
    true
}

// Whether nobody has come by three quarters of a handshake.
fn begins<O: Doors>(peer: &mut TcpStream, doors: &mut O) -> bool {
    for part in [0, QUARTER, 2 * QUARTER] {
        if !writes(peer, &REQUEST[part..part + QUARTER]) || !nobody_comes(doors) {
            return false;
        }
    }
    true
}

// Whether it is let in by the last quarter.
fn is_let_in<O: Doors>(peer: &mut TcpStream, doors: &mut O) -> bool {
    writes(peer, &REQUEST[3 * QUARTER..]) && next_link(doors).is_some()
}

// Whether a handshake that has only begun is let go two seconds later.
fn is_let_go<O: Doors>(peer: &mut TcpStream, doors: &mut O, clock: &SetClock, then: u64) -> bool {
    let has_begun = writes(peer, &REQUEST[..QUARTER]) && nobody_comes(doors);
    clock.set(then);
    has_begun && nobody_comes(doors) && has_no_answer(peer) && nobody_comes(doors)
}

fn has_no_answer(peer: &mut TcpStream) -> bool {
    !matches!(peer.read(&mut [0u8; 8]), Ok(count) if count > 0)
}

#[test]
fn a_handshake_that_is_cut_or_slow_keeps_nobody_out(rt: HostRuntime) {
    let clock = clock();
    let mut doors = opened(&rt, &clock).expect(&rt, "ports");
    let port = doors.ports().card;
    assert!(rt; cut_handshakes_come_to_nothing(&rt, port, &mut doors));
    let mut slow = connected(&rt, port).expect(&rt, "a stream");
    assert!(rt; begins(&mut slow, &mut doors));
    clock.set(1_999);
    assert!(rt; nobody_comes(&mut doors));
    assert!(rt; peer_of(&rt, &mut doors).is_some());
    assert!(rt; is_let_in(&mut slow, &mut doors));
    let mut late = connected(&rt, port).expect(&rt, "a stream");
    assert!(rt; is_let_go(&mut late, &mut doors, &clock, 3_999));
}

// A peer that says nothing, whose handshake is under way.
fn silent_peer<O: Doors>(rt: &HostRuntime, port: u16, doors: &mut O) -> Option<TcpStream> {
    let peer = connected(rt, port)?;
    peer.set_nonblocking(true).ok()?;
    if nobody_comes(doors) {
        Some(peer)
    } else {
        None
    }
}

// So many of them, where as many come.
fn silent_peers<O: Doors>(
    rt: &HostRuntime,
    port: u16,
    doors: &mut O,
    count: u32,
) -> Result<Vec<TcpStream>, AllocError> {
    let mut peers = Vec::new(rt.alloc());
    for _ in 0..count {
        if let Some(peer) = silent_peer(rt, port, doors) {
            peers.push(peer)?;
        }
    }
    Ok(peers)
}

// Whether the stream of a peer to which nothing was written is open.
fn is_open(peer: &mut TcpStream) -> bool {
    match peer.read(&mut [0u8; 8]) {
        Ok(_) => false,
        Err(error) => error.kind() == ErrorKind::WouldBlock,
    }
}

#[test]
fn of_more_than_64_handshakes_the_oldest_is_let_go(rt: HostRuntime) -> Result<(), Fail> {
    let clock = clock();
    let mut doors = opened(&rt, &clock).ok_or("ports")?;
    let port = doors.ports().card;
    let mut first = silent_peer(&rt, port, &mut doors).ok_or("the first peer")?;
    let mut second = silent_peer(&rt, port, &mut doors).ok_or("the second peer")?;
    let others = silent_peers(&rt, port, &mut doors, 62)?;
    assert_eq!(rt; others.len(), 62);
    assert!(rt; is_open(&mut first) && is_open(&mut second));
    let _latest = silent_peer(&rt, port, &mut doors).ok_or("the latest peer")?;
    assert!(rt; !is_open(&mut first) && is_open(&mut second));
    assert!(rt; writes(&mut second, REQUEST) && next_link(&mut doors).is_some());
    Ok(())
}

// A connected stream in a listener's place, at which accept(2) answers EINVAL.
fn no_listener(rt: &HostRuntime) -> Option<TcpListener> {
    let listener = TcpListener::bind(rt, ("127.0.0.1", 0)).ok()?;
    let stream = connected(rt, listener.local_addr().ok()?.port())?;
    Some(TcpListener::from(OwnedFd::from(stream)))
}

// The entrance by the one listener of the card reader.
fn entrance_by(alloc: Global, listener: TcpListener) -> Option<Entrance<'static>> {
    let mut ports = Vec::new(alloc);
    let port = Port {
        service: Service::Card,
        listener,
    };
    ports.push(port).ok()?;
    Entrance::new(alloc, ports, Origins::none()).ok()
}

#[test]
fn doors_fail_where_a_listener_is_broken(rt: HostRuntime) {
    let listener = no_listener(&rt).expect(&rt, "a stream");
    let mut entrance = entrance_by(rt.alloc(), listener).expect(&rt, "memory");
    for _ in 0..2 {
        assert!(rt; matches!(entrance.next(rt.alloc(), Moment(0)), Door::Failed));
    }
}

#[test]
fn doors_fail_nowhere_else(rt: HostRuntime) {
    // EPERM, EINTR, EAGAIN, ENOMEM, ENFILE, EMFILE, EPROTO, ECONNABORTED, ECONNRESET and ENOBUFS
    for code in [1, 4, 11, 12, 23, 24, 71, 103, 104, 105] {
        assert!(rt; !is_broken(&io::Error::from_raw_os_error(code)), "{code}");
    }
}

// Asks over a dialled link, and answers whether the same text comes back.
fn asked<O: Doors + Drop>(mut doors: O) -> bool {
    let Ok(mut link) = doors.dial(Service::Card) else {
        return false;
    };
    gives(&mut link, b"ask") && text_len(next_news(&mut link)) == Some(3)
}

fn text_len(news: Taking) -> Option<usize> {
    match news {
        Taking::Text(text) => Some(text.list().len()),
        _ => None,
    }
}

// Answers one text of a link with itself.
fn echoes<L: Link>(link: &mut L) -> bool {
    match next_news(link) {
        Taking::Text(text) => gives(link, text.list()),
        _ => false,
    }
}

// Answers one text of the next connection with itself.
fn answered<O: Doors + Drop>(mut doors: O) -> bool {
    match next_link(&mut doors) {
        Some((_, mut link)) => echoes(&mut link),
        None => false,
    }
}

// What the one side makes of doors that dial, and the other of doors that they dial.
fn both<R: Threads>(rt: &R, outward: OpenDoors<'_>, doors: OpenDoors<'_>) -> (bool, bool) {
    thread::join(rt, move || asked(outward), move || answered(doors))
}

#[test]
fn a_dialled_link_is_answered(rt: HostRuntime) {
    let clock = clock();
    let doors = opened(&rt, &clock).expect(&rt, "ports");
    let outward = outward(&rt, &clock, doors.ports()).expect(&rt, "doors");
    assert!(rt; both(&rt, outward, doors) == (true, true));
}

#[test]
fn nobody_comes_in_at_doors_that_only_dial(rt: HostRuntime) {
    let clock = clock();
    let nobody = Ports { card: 1, ..ANY };
    let mut doors = outward(&rt, &clock, nobody).expect(&rt, "doors");
    assert!(rt; matches!(doors.dial(Service::Card), Err(DialFault::Failed)));
    assert!(rt; nobody_comes(&mut doors));
}
