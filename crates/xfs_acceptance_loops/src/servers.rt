use std::alloc::Global;
use std::sync::Wait;
use std::sync::atomic::{AtomicBool, AtomicU64, Ordering};
use std::test::Fail;
use std::thread::Threads;
use xfs_base::{Bytes, ClientId, FixedClock, Memory, Service};
use xfs_mech::{SimWatch, Touch};
use xfs_server::{
    Board, DialFault, Door, Doors, GiveFault, Link, MemDoors, MemLink, OpenGate, Taking, Tended,
    Work2,
};
use xfs_serving::{Backend, CardWatch, Ending, KeyWatch, Refusal, serve};

// Notes an event by a digit behind those before.
fn note(order: &AtomicU64, digit: u8) {
    let before = order.load(Ordering::SeqCst);
    if before < 100_000_000 {
        order.store(before * 10 + u64::from(digit), Ordering::SeqCst);
    }
}

const LEFT: u8 = 1;

const LET_GO: u8 = 2;

/// What stands behind a connection, which counts its calls alone.
#[derive(Drop)]
struct Desk<'a> {
    alloc: Global,
    order: &'a AtomicU64,
    posts: u64,
    turns: u64,
    fetches: u64,
}

impl<'a> Board for Desk<'a> {
    ghost use Rattle.std.specs.Prelude.{None};

    ghost log = { λ d. record { texts = None; handed = None; latest = None; posts = d.posts; turns = d.turns; fetches = d.fetches } };

    fn post(&mut self, _text: &[u8]) -> Result<(), Memory> {
        self.posts = self.posts.saturating_add(1);
        Ok(())
    }

    fn turn(&mut self) -> Result<Work2, Memory> {
        self.turns = self.turns.saturating_add(1);
        Ok(Work2::Idle)
    }

    fn frames(&mut self) -> Vec<Bytes> {
        self.fetches = self.fetches.saturating_add(1);
        Vec::new(self.alloc)
    }
}

/// What stands behind a worker, which ends once its flag is raised, or for want of memory.
#[derive(Drop)]
struct Device<'a> {
    ended: &'a AtomicBool,
    starves: bool,
    closing: bool,
    touches: u64,
    turns: u64,
}

impl<'a> Tended for Device<'a> {
    ghost use Rattle.std.specs.Prelude.{None};

    ghost log = { λ d. record { touched = None; faults = None; wanted = None; unwanted = None; stays = None; closing = d.closing; touches = d.touches; turns = d.turns } };

    fn wants(&mut self) -> bool {
        true
    }

    fn touch(&mut self, _touch: Touch) -> Result<(), Memory> {
        self.touches = self.touches.saturating_add(1);
        Ok(())
    }

    fn fault(&mut self) -> Result<(), Memory> {
        Ok(())
    }

    fn turn(&mut self) -> Result<Work2, Memory> {
        self.turns = self.turns.saturating_add(1);
        if self.starves {
            return Err(Memory);
        }
        Ok(Work2::Idle)
    }

    fn closing(&mut self) -> bool {
        if self.ended.load(Ordering::SeqCst) {
            self.closing = true;
        }
        self.closing
    }
}

/// A backend with room for so many connections, which counts those that have left.
#[derive(Drop)]
struct Bench<'a> {
    alloc: Global,
    order: &'a AtomicU64,
    ended: &'a AtomicBool,
    starves: bool,
    room: u32,
    left: u32,
}

impl<'a> Backend for Bench<'a> {
    ghost use Rattle.std.specs.Prelude.{⊤, []};

    type Entry = u64;

    type Board = Desk<'a>;

    type Tended = Device<'a>;

    // How many connections have left.
    type Left = u32;

    ghost seen = { λ b. [] };

    ghost seen_left = { λ left. [] };

    ghost leaves = { λ desk left. ⊤ };

    ghost retires = { λ device left. ⊤ };

    fn connect(&mut self, _service: Service) -> Result<(ClientId, Desk<'a>), Refusal> {
        if self.room == 0 {
            return Err(Refusal::Full);
        }
        self.room -= 1;
        Ok((
            ClientId(1),
            Desk {
                alloc: self.alloc,
                order: self.order,
                posts: 0,
                turns: 0,
                fetches: 0,
            },
        ))
    }

    fn worker(&mut self, service: Service) -> Result<Device<'a>, Memory> {
        Ok(Device {
            ended: self.ended,
            starves: self.starves && service == Service::Keys,
            closing: false,
            touches: 0,
            turns: 0,
        })
    }

    fn close(&mut self) {
        self.ended.store(true, Ordering::SeqCst);
    }

    fn leave(board: Desk<'a>) -> u32 {
        note(board.order, LEFT);
        1
    }

    fn retire(_tended: Device<'a>) -> u32 {
        0
    }

    fn take_back(&mut self, left: u32) {
        self.left = self.left.saturating_add(left);
    }
}

/// A link in memory that notes when it is let go.
struct NotedLink<'a> {
    inner: MemLink,
    order: &'a AtomicU64,
}

impl<'a> Drop for NotedLink<'a> {
    fn drop(self) {
        let NotedLink { inner: _, order } = self;
        note(order, LET_GO);
    }
}

impl<'a> Link for NotedLink<'a> {
    ghost log = { λ l. l.inner.log };

    fn take(&mut self) -> Taking {
        self.inner.take()
    }

    fn give(&mut self, text: &[u8]) -> Result<(), GiveFault> {
        self.inner.give(text)
    }
}

/// Doors in memory that hand over such links.
#[derive(Drop)]
struct NotedDoors<'a> {
    inner: MemDoors,
    order: &'a AtomicU64,
}

impl<'a> Doors for NotedDoors<'a> {
    type Link = NotedLink<'a>;

    ghost log = { λ d. d.inner.log };

    fn next(&mut self) -> Door<NotedLink<'a>> {
        match self.inner.next() {
            Door::Came(service, inner) => {
                let order = self.order;
                Door::Came(service, NotedLink { inner, order })
            }
            Door::Quiet => Door::Quiet,
            Door::Failed => Door::Failed,
            Door::Memory => Door::Memory,
        }
    }

    fn dial(&mut self, service: Service) -> Result<NotedLink<'a>, DialFault> {
        match self.inner.dial(service) {
            Ok(inner) => {
                let order = self.order;
                Ok(NotedLink { inner, order })
            }
            Err(fault) => Err(fault),
        }
    }
}

// Doors to which so many links come, each closed by its peer. The first may fail in place of that.
fn doors<'a>(
    alloc: Global,
    order: &'a AtomicU64,
    coming: u32,
    first_fails: bool,
    failing: &[u64],
) -> Result<NotedDoors<'a>, Memory> {
    let mut links = Vec::new(alloc);
    for at in 0..coming {
        let takes: &[u64] = if at == 0 && first_fails { &[1] } else { &[] };
        let takes = Vec::from_slice(alloc, takes)?;
        let link = MemLink::new(alloc, Vec::new(alloc), true, takes, Vec::new(alloc));
        links.push((Service::Cash, link))?;
    }
    let inner = MemDoors::new(links, None, Vec::from_slice(alloc, failing)?);
    Ok(NotedDoors { inner, order })
}

/// How many connections are to come and do, whether the first one's link fails, which calls of the doors
/// fail, how many connections have room, and whether a worker finds no memory; how the server ends, and
/// how many sessions have left.
#[derive(Clone, Copy)]
struct Case {
    count: u32,
    coming: u32,
    first_fails: bool,
    failing: &'static [u64],
    room: u32,
    starves: bool,
    ending: Ending,
    left: u32,
}

// Room for all, and nothing fails.
const fn plain(count: u32, coming: u32, ending: Ending, left: u32) -> Case {
    Case {
        count,
        coming,
        first_fails: false,
        failing: &[],
        room: 64,
        starves: false,
        ending,
        left,
    }
}

// How a server ends, and how many sessions have left.
fn play<R: Threads + Wait + Sync>(
    rt: &R,
    alloc: Global,
    case: Case,
    order: &AtomicU64,
) -> Result<(Ending, u32), Memory> {
    let ended = AtomicBool::new(false);
    let mut doors = doors(alloc, order, case.coming, case.first_fails, case.failing)?;
    let bench = Bench {
        alloc,
        order,
        ended: &ended,
        starves: case.starves,
        room: case.room,
        left: 0,
    };
    let clock = FixedClock(0);
    let cards = CardWatch(SimWatch::new(Vec::new(alloc), Vec::new(alloc)));
    let keys = KeyWatch(SimWatch::new(Vec::new(alloc), Vec::new(alloc)));
    let (ending, bench) = serve(
        rt, alloc, case.count, bench, &mut doors, &clock, &OpenGate, cards, keys,
    );
    Ok((ending, bench.left))
}

#[test]
fn a_server_ends_when_all_sessions_have_left(rt: HostRuntime) -> Result<(), Fail> {
    let alloc = rt.alloc();
    let table = [
        plain(1, 1, Ending::Served, 1),
        plain(2, 3, Ending::Served, 2),
        Case {
            first_fails: true,
            ..plain(2, 2, Ending::Served, 2)
        },
        Case {
            room: 1,
            ..plain(2, 2, Ending::Served, 1)
        },
        Case {
            failing: &[1],
            ..plain(1, 0, Ending::Failed, 0)
        },
        Case {
            failing: &[2],
            ..plain(2, 1, Ending::Failed, 1)
        },
        Case {
            starves: true,
            ..plain(1, 0, Ending::Memory, 0)
        },
    ];
    for case in table {
        let order = AtomicU64::new(0);
        let (ending, left) = play(&rt, alloc, case, &order)?;
        assert!(rt; ending == case.ending);
        assert!(rt; left == case.left);
    }
    Ok(())
}

#[test]
fn a_session_leaves_before_its_link_is_let_go(rt: HostRuntime) -> Result<(), Fail> {
    let order = AtomicU64::new(0);
    play(&rt, rt.alloc(), plain(1, 1, Ending::Served, 1), &order)?;
    assert!(rt; order.load(Ordering::SeqCst) == u64::from(LEFT * 10 + LET_GO));
    Ok(())
}
