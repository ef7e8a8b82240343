//! Sessions, workers and doors in memory.

use crate::lists::{are, first_of, halves, is, numbers_of, texts_of};
use std::alloc::Global;
use std::sync::Wait;
use std::sync::atomic::{AtomicU64, Ordering};
use std::test::Fail;
use xfs_base::{ClientId, Clock, FixedClock, Memory, Moment, Service};
use xfs_mech::{KeyName, SimWatch, Touch};
use xfs_server::{
    Bell, DialFault, Door, Doors, Gate, GateAt, Link, MemBoard, MemDoors, MemLink, MemTended, Over,
    Over2, Taking, serve_client, tend,
};

/// A gate that notes its passes, one digit each.
#[derive(Drop)]
struct NotingGate {
    passes: AtomicU64,
}

impl Gate for NotingGate {
    fn pass(&self, client: ClientId, what: GateAt) {
        let digit = match what {
            GateAt::Post => 1,
            GateAt::Work => 2,
            GateAt::Frames => 3,
        };
        let before = self.passes.load(Ordering::SeqCst);
        if client == ClientId(7) && before < 100_000_000 {
            self.passes.store(before * 10 + digit, Ordering::SeqCst);
        }
    }
}

// What comes over a link before it closes, which of its takes and gives fail, and what the board hands over in its turns, with
// strokes between them; how the session ends, what is sent and posted, and the points of the gate that it passes.
const SESSIONS: &str = "a - - x => Closed x a 123
a,b - - -/x,y/z => Closed x,y a,b 123123
a,b 2 - x => Failed x a 123
a,b - 2 x,y,z => Failed x a 12
- - - x => Closed - - 0";

fn link_of(
    alloc: Global,
    texts: &str,
    failing_takes: &str,
    failing_gives: &str,
) -> Result<MemLink, Memory> {
    let texts = texts_of(alloc, texts)?;
    let takes = numbers_of(alloc, failing_takes)?;
    let gives = numbers_of(alloc, failing_gives)?;
    Ok(MemLink::new(alloc, texts, true, takes, gives))
}

fn board_of(alloc: Global, turns: &str) -> Result<MemBoard, Memory> {
    let mut frames = Vec::new(alloc);
    for list in turns.split('/') {
        frames.push(texts_of(alloc, list)?)?;
    }
    MemBoard::new(alloc, frames)
}

// What a row begins with.
fn set_up(alloc: Global, given: &str) -> Result<(MemLink, MemBoard), Memory> {
    let (texts, given) = first_of(given);
    let (takes, given) = first_of(given);
    let (gives, turns) = first_of(given);
    Ok((
        link_of(alloc, texts, takes, gives)?,
        board_of(alloc, turns)?,
    ))
}

fn served(link: &mut MemLink, board: &mut MemBoard, gate: &NotingGate) -> Over {
    serve_client(link, board, gate, &FixedClock(0), ClientId(7))
}

fn is_over(over: Over, word: &str) -> bool {
    match over {
        Over::Closed => word == "Closed",
        Over::Failed => word == "Failed",
        _ => false,
    }
}

// Whether what was sent and posted, and the passes of the gate, are what is due.
fn is_told(link: &MemLink, board: &MemBoard, gate: &NotingGate, due: &str) -> bool {
    let (sent, due) = first_of(due);
    let (posted, passes) = first_of(due);
    are(link.sent(), sent)
        && are(board.texts(), posted)
        && is(gate.passes.load(Ordering::SeqCst), passes)
}

// Whether a session over a fresh link goes as its row says.
fn goes(alloc: Global, row: &str) -> Result<bool, Memory> {
    let (given, due) = halves(row);
    let (mut link, mut board) = set_up(alloc, given)?;
    let gate = NotingGate {
        passes: AtomicU64::new(0),
    };
    let was_fresh = link.is_fresh();
    let over = served(&mut link, &mut board, &gate);
    let (ending, told) = first_of(due);
    let is_due = is_over(over, ending) && is_told(&link, &board, &gate, told);
    Ok(is_due && was_fresh && !link.is_fresh())
}

#[test]
fn a_session_posts_what_comes_and_gives_what_the_board_hands_over(
    rt: HostRuntime,
) -> Result<(), Fail> {
    for row in SESSIONS.split('\n') {
        assert!(rt; goes(rt.alloc(), row)?, "{row}");
    }
    Ok(())
}

/// A clock that counts its pauses.
#[derive(Drop)]
struct CountingClock {
    pauses: AtomicU64,
}

impl Clock for CountingClock {
    ghost use Rattle.std.specs.Prelude.{◌≡◌};

    ghost tells = { λ _ moment. moment.0 ≡ 0 };

    fn now(&self) -> Moment {
        Moment(0)
    }

    fn pause(&self) {
        self.pauses.fetch_add(1, Ordering::SeqCst);
    }
}

/// A worker whose watch tells a key and that the card was taken.
#[derive(Clone, Copy)]
struct Trial {
    wants: bool,
    rounds: u64,
    // The call of the watch that fails, if one does.
    failing: Option<u64>,
}

/// What the worker's board was told, and how often the worker paused.
#[derive(Clone, Copy, PartialEq, Eq)]
struct Tale {
    touches: usize,
    faults: u64,
    turns: u64,
    pauses: u64,
}

fn watch_of(alloc: Global, failing: Option<u64>) -> Result<SimWatch, Memory> {
    let mut touches = Vec::new(alloc);
    touches.push(Touch::Key(KeyName::One))?;
    touches.push(Touch::CardTaken)?;
    let mut calls = Vec::new(alloc);
    if let Some(call) = failing {
        calls.push(call)?;
    }
    Ok(SimWatch::new(touches, calls))
}

// The key comes first, if anything does.
fn begins_with_the_key(touched: &[Touch]) -> bool {
    matches!(touched, [] | [Touch::Key(KeyName::One), ..])
}

// What a worker's board is told in the end, where the worker ends well.
fn tale_of<R: Wait>(rt: &R, alloc: Global, trial: Trial) -> Result<Option<Tale>, Memory> {
    let mut watch = watch_of(alloc, trial.failing)?;
    let mut board = MemTended::new(alloc, trial.wants, trial.rounds);
    let clock = CountingClock {
        pauses: AtomicU64::new(0),
    };
    let over = tend(rt, &mut board, &mut watch, &clock, &Bell::new());
    if over != Over2::Done || !begins_with_the_key(board.touches_made()) {
        return Ok(None);
    }
    Ok(Some(Tale {
        touches: board.touches_made().len(),
        faults: board.faults(),
        turns: board.turns(),
        pauses: clock.pauses.load(Ordering::SeqCst),
    }))
}

fn tried(wants: bool, rounds: u64, failing: Option<u64>) -> Trial {
    Trial {
        wants,
        rounds,
        failing,
    }
}

fn told(touches: usize, faults: u64, turns: u64, pauses: u64) -> Option<Tale> {
    Some(Tale {
        touches,
        faults,
        turns,
        pauses,
    })
}

#[test]
fn a_worker_hands_on_what_is_wanted_and_pauses_where_nothing_came(
    rt: HostRuntime,
) -> Result<(), Fail> {
    let alloc = rt.alloc();
    assert!(rt; tale_of(&rt, alloc, tried(true, 1, Some(1)))? == told(0, 1, 1, 1));
    assert!(rt; tale_of(&rt, alloc, tried(true, 3, Some(1)))? == told(2, 1, 3, 1));
    assert!(rt; tale_of(&rt, alloc, tried(true, 4, None))? == told(2, 0, 4, 2));
    assert!(rt; tale_of(&rt, alloc, tried(false, 3, None))? == told(0, 0, 3, 3));
    Ok(())
}

// Longer pauses aren't the clock's.
#[test]
fn a_worker_pauses_longer_after_sixteen_rounds_where_nothing_is_wanted(
    rt: HostRuntime,
) -> Result<(), Fail> {
    let alloc = rt.alloc();
    assert!(rt; tale_of(&rt, alloc, tried(false, 20, None))? == told(0, 0, 20, 16));
    assert!(rt; tale_of(&rt, alloc, tried(true, 20, None))? == told(2, 0, 20, 18));
    Ok(())
}

// Doors to which one link comes, over which one text comes, and that dial one other link at the second time.
fn doors_of(alloc: Global) -> Result<MemDoors, Memory> {
    let none = Vec::new(alloc);
    let texts = texts_of(alloc, "a")?;
    let coming = MemLink::new(alloc, texts, false, Vec::new(alloc), Vec::new(alloc));
    let dialled = MemLink::new(alloc, none, false, Vec::new(alloc), Vec::new(alloc));
    let mut links = Vec::new(alloc);
    links.push((Service::Card, coming))?;
    Ok(MemDoors::new(links, Some(dialled), numbers_of(alloc, "2")?))
}

// Whether a link has one text, then none, and takes one.
fn takes_and_gives<L: Link>(link: &mut L) -> bool {
    matches!(link.take(), Taking::Text(_))
        && matches!(link.take(), Taking::Quiet)
        && link.give(b"b") == Ok(())
}

fn came<O: Doors>(doors: &mut O) -> Option<(Service, O::Link)> {
    match doors.next() {
        Door::Came(service, link) => Some((service, link)),
        _ => None,
    }
}

fn nobody_comes<O: Doors>(doors: &mut O) -> bool {
    matches!(doors.next(), Door::Quiet)
}

fn dials<O: Doors>(doors: &mut O) -> bool {
    doors.dial(Service::Cash).is_ok()
}

fn fails_to_dial<O: Doors>(doors: &mut O) -> bool {
    matches!(doors.dial(Service::Cash), Err(DialFault::Failed))
}

#[test]
fn doors_in_memory_hand_over_each_link_once(rt: HostRuntime) -> Result<(), Fail> {
    let mut doors = doors_of(rt.alloc())?;
    let (service, mut link) = came(&mut doors).ok_or("a connection")?;
    assert!(rt; service == Service::Card && takes_and_gives(&mut link));
    assert!(rt; fails_to_dial(&mut doors));
    assert!(rt; nobody_comes(&mut doors));
    assert!(rt; dials(&mut doors));
    assert!(rt; fails_to_dial(&mut doors));
    Ok(())
}
