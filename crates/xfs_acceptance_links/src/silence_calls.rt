//! Peers that are silent, slow to take, or never end a message.

use crate::peers::{SetClock, clock, has_failed, is_quiet, only_peer, reads, writes};
use std::alloc::{AllocError, Global};
use std::io::Read;
use std::net::TcpStream;
use std::test::Fail;
use xfs_server::{Link, Taking};

const PING: &[u8] = b"\x89\x00";

// A pong without content, masked.
const PONG: &[u8] = b"\x8a\x80\0\0\0\0";

// A fragment of a text that is to go on, and one that goes on without content.
const FIRST: &[u8] = b"\x01\x81\0\0\0\0\x61";

const NEXT: &[u8] = b"\x00\x80\0\0\0\0";

// How many fragments without content are written at once, and how often at most.
const FRAGMENTS: usize = 5_000;

const ROUNDS: u32 = 100;

// Whether nothing has come to the peer.
fn hears_nothing(peer: &mut TcpStream) -> bool {
    peer.set_nonblocking(true).is_ok()
        && peer.read(&mut [0u8; 2]).is_err()
        && peer.set_nonblocking(false).is_ok()
}

// Whether the link is quiet so often.
fn stays_quiet<L: Link>(link: &mut L, often: u32) -> bool {
    for _ in 0..often {
        if !is_quiet(link) {
            return false;
        }
    }
    true
}

// Whether the peer is pinged at the end of a minute and not before, and is heard as it answers.
fn is_pinged<L: Link>(link: &mut L, peer: &mut TcpStream, clock: &SetClock, minute: u64) -> bool {
    let end = minute.saturating_add(1).saturating_mul(60_000);
    clock.set(end.saturating_sub(1));
    let is_left_alone = stays_quiet(link, 2) && hears_nothing(peer);
    clock.set(end);
    let is_pinged = stays_quiet(link, 2) && reads(peer, PING);
    is_left_alone && is_pinged && writes(peer, PONG) && stays_quiet(link, 20)
}

// Whether a peer that is pinged at the end of the fourth minute has failed at the end of the fifth, and not before.
fn fails_in_the_end<L: Link>(link: &mut L, clock: &SetClock) -> bool {
    clock.set(240_000);
    let is_pinged = is_quiet(link);
    clock.set(299_999);
    let is_waited_for = is_quiet(link);
    clock.set(300_000);
    is_pinged && is_waited_for && has_failed(link)
}

#[test]
fn a_silent_peer_is_pinged_and_then_a_fault(rt: HostRuntime) {
    let clock = clock();
    let (mut link, mut peer) = only_peer(&rt, &clock).expect(&rt, "a connection");
    for minute in 0..3 {
        assert!(rt;
            is_pinged(&mut link, &mut peer, &clock, minute),
            "minute {minute}"
        );
    }
    assert!(rt; fails_in_the_end(&mut link, &clock));
}

// Many fragments without content.
fn fragments(alloc: Global) -> Result<Vec<u8>, AllocError> {
    let mut fragments = Vec::new(alloc);
    for _ in 0..FRAGMENTS {
        fragments.extend_from_slice(NEXT)?;
    }
    Ok(fragments)
}

// Whether the link fails while its peer writes fragments.
fn fails_in_time<L: Link>(link: &mut L, peer: &mut TcpStream, fragments: &[u8]) -> bool {
    for _ in 0..ROUNDS {
        if !writes(peer, fragments) {
            return false;
        }
        match link.take() {
            Taking::Quiet => {}
            other => return matches!(other, Taking::Failed),
        }
    }
    false
}

#[test]
fn a_message_without_an_end_is_a_fault(rt: HostRuntime) -> Result<(), Fail> {
    let clock = clock();
    let (mut link, mut peer) = only_peer(&rt, &clock).ok_or("a connection")?;
    let fragments = fragments(rt.alloc())?;
    assert!(rt; writes(&mut peer, FIRST));
    assert!(rt; fails_in_time(&mut link, &mut peer, &fragments));
    Ok(())
}
