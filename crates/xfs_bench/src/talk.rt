//! The two ends of a connection on which texts are answered with themselves.

use crate::echo_board::EchoBoard;
use std::alloc::Global;
use xfs_base::{ClientId, Clock, Service};
use xfs_server::{Door, Doors, Link, OpenGate, Taking, serve_client};

// So many times of a millisecond somebody is waited for.
const MOST_WAITS: u32 = 10_000;

// So many quiets one answer is waited for.
const MOST_QUIETS: u32 = 1_000;

const TEXT: [u8; 200] = [0x61; 200];

/// Answers the texts of the next connection until it ends: how many came. None where nobody came.
pub fn answered<O: Doors + Drop, C: Clock>(alloc: Global, mut doors: O, clock: &C) -> Option<u64> {
    let mut link = came(&mut doors, clock)?;
    let mut board = EchoBoard::new(alloc);
    serve_client(&mut link, &mut board, &OpenGate, clock, ClientId(1));
    Some(board.posts())
}

fn came<O: Doors, C: Clock>(doors: &mut O, clock: &C) -> Option<O::Link> {
    for _ in 0..MOST_WAITS {
        match doors.next() {
            Door::Came(_, link) => return Some(link),
            Door::Quiet => clock.pause(),
            Door::Failed | Door::Memory => return None,
        }
    }
    None
}

/// Asks so many texts of 200 bytes, one behind the other: how many came back, up to the first that didn't.
pub fn asked<O: Doors + Drop>(mut doors: O, texts: u32) -> u32 {
    let Ok(mut link) = doors.dial(Service::Card) else {
        return 0;
    };
    for done in 0..texts {
        if !is_answered(&mut link) {
            return done;
        }
    }
    texts
}

fn is_answered<L: Link>(link: &mut L) -> bool {
    if link.give(&TEXT).is_err() {
        return false;
    }
    for _ in 0..MOST_QUIETS {
        match link.take() {
            Taking::Text(text) => return text.list() == TEXT.as_slice(),
            Taking::Quiet => {}
            Taking::Closed | Taking::Failed | Taking::Memory => return false,
        }
    }
    false
}
