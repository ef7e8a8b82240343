//! The bell at which a worker listens.

use std::sync::Wait;
use std::test::Fail;
use std::thread;
use std::thread::Threads;
use xfs_base::{Clock, StdClock};
use xfs_server::Bell;

// Milliseconds: of a sleep that is woken, of one that isn't, and by when who is woken is awake.
const LONG: u64 = 20_000;

const SHORT: u64 = 20;

const SOON: u64 = 10_000;

// Whether a sleeper is woken by a bell that rings some milliseconds later.
fn is_woken<R: Threads + Wait + Sync>(rt: &R) -> bool {
    let (bell, other) = (Bell::new(), Bell::new());
    bell.listen();
    other.listen();
    let (woken, rang) = thread::join(
        rt,
        || -> bool { bell.sleep(rt, LONG) },
        || -> bool {
            let rang = other.sleep(rt, SHORT);
            bell.ring();
            rang
        },
    );
    woken && !rang
}

// A bell that rings before anybody listens wakes nobody.
fn rings_behind_listen<R: Wait>(rt: &R) -> bool {
    let bell = Bell::new();
    bell.ring();
    bell.listen();
    let early = bell.sleep(rt, SHORT);
    bell.ring();
    !early && bell.sleep(rt, LONG)
}

#[test]
fn a_worker_that_sleeps_is_woken_by_its_bell(rt: HostRuntime) -> Result<(), Fail> {
    let clock = StdClock::new(&rt);
    assert!(rt; rings_behind_listen(&rt));
    assert!(rt; is_woken(&rt));
    assert!(rt; clock.now().0 < SOON);
    Ok(())
}
