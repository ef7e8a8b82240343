//! Turns of many threads side by side.
ghost use Rattle.std.specs.Prelude.{◌≡◌};
ghost use Rattle.std.specs.Thread.{IsSync};

use crate::tally::Tally;
use std::alloc::Global;
use std::sync::atomic::{AtomicBool, Ordering};
use std::sync::{Mutex, Wait};
use std::thread;
use std::thread::Threads;
use std::time::{Clock, Duration};
use xfs_turn::{Seat, Turn};

/// How many turns so many threads took, under the turn lock, under std's Mutex, or as those that wait for one. None for a
/// name of neither, and where memory ran out.
pub fn taken<R: Threads + Wait + Clock + Sync>(
    rt: &R,
    alloc: Global,
    lock: &str,
    threads: u32,
    turns: u32,
) -> Option<u64> {
    match lock {
        "turn" => under_turn(rt, alloc, threads, turns),
        "mutex" => Some(under_mutex(rt, threads, turns)),
        "wait" => waiting(rt, alloc, threads, turns),
        _ => None,
    }
}

// The turns of one thread.
fn take_turns<R: Wait>(rt: &R, turn: &Turn<Tally>, mut seat: Seat<Tally>, turns: u32) -> Seat<Tally>
    requires lock { seat.lock ≡ turn.now }
    ensures lock { result.lock ≡ turn.now }
{
    for _ in 0..turns {
        let mut held = turn.enter(rt, seat);
        let tally = held.value();
        tally.taken = tally.taken.wrapping_add(1);
        seat = turn.leave(held);
    }
    seat
}

// So many threads at once, with a seat each.
fn side_by_side<R: Threads + Wait + Sync>(
    rt: &R,
    turn: &Turn<Tally>,
    mut seat: Seat<Tally>,
    threads: u32,
    turns: u32,
) -> Seat<Tally>
    requires lock { seat.lock ≡ turn.now }
    ensures lock { result.lock ≡ turn.now }
{
    let half = threads / 2;
    if half == 0 {
        return take_turns(rt, turn, seat, turns);
    }
    let rest = threads - half;
    let Ok(other) = turn.split(&mut seat) else {
        return seat;
    };
    let (mut one, two) = thread::join(
        rt,
        || -> Seat<Tally>
            requires { IsSync R.row × (seat.lock ≡ turn.now) }
            ensures { result.lock ≡ turn.entry.now }
        { side_by_side(rt, turn, seat, half, turns) },
        || -> Seat<Tally>
            requires { IsSync R.row × (other.lock ≡ turn.now) }
            ensures { result.lock ≡ turn.entry.now }
        { side_by_side(rt, turn, other, rest, turns) },
    );
    turn.join(&mut one, two);
    one
}

// So many threads take so many turns each under the turn lock: how many were taken. None where memory ran out.
fn under_turn<R: Threads + Wait + Sync>(
    rt: &R,
    alloc: Global,
    threads: u32,
    turns: u32,
) -> Option<u64> {
    let (turn, seat) = Turn::new(alloc, Tally { taken: 0 }).ok()?;
    let seat = side_by_side(rt, &turn, seat, threads, turns);
    Some(turn.close(rt, seat).taken)
}

// Takes the turn, says so, and holds it for a second.
fn hold<R: Wait + Clock>(
    rt: &R,
    turn: &Turn<Tally>,
    seat: Seat<Tally>,
    is_held: &AtomicBool,
) -> Seat<Tally>
    requires lock { seat.lock ≡ turn.now }
    ensures lock { result.lock ≡ turn.now }
{
    let held = turn.enter(rt, seat);
    is_held.store(true, Ordering::SeqCst);
    thread::sleep(rt, Duration::from_secs(1));
    turn.leave(held)
}

// Waits until the turn is held, and then for turns.
fn take_held<R: Threads + Wait + Sync>(
    rt: &R,
    turn: &Turn<Tally>,
    seat: Seat<Tally>,
    is_held: &AtomicBool,
    threads: u32,
    turns: u32,
) -> Seat<Tally>
    requires lock { seat.lock ≡ turn.now }
    ensures lock { result.lock ≡ turn.now }
{
    for _ in rt.forever() {
        if is_held.load(Ordering::SeqCst) {
            return side_by_side(rt, turn, seat, threads, turns);
        }
        thread::yield_now();
    }
    unreachable!()
}

// So many threads wait for so many turns each, the first while another holds it for a second: how many were taken.
fn waiting<R: Threads + Wait + Clock + Sync>(
    rt: &R,
    alloc: Global,
    threads: u32,
    turns: u32,
) -> Option<u64> {
    let (turn, mut seat) = Turn::new(alloc, Tally { taken: 0 }).ok()?;
    let other = turn.split(&mut seat).ok()?;
    let lock = &turn;
    let is_held = AtomicBool::new(false);
    let (mut one, two) = thread::join(
        rt,
        || -> Seat<Tally>
            requires { seat.lock ≡ lock.now }
            ensures { result.lock ≡ lock.entry.now }
        { hold(rt, lock, seat, &is_held) },
        || -> Seat<Tally>
            requires { IsSync R.row × (other.lock ≡ lock.now) }
            ensures { result.lock ≡ lock.entry.now }
        { take_held(rt, lock, other, &is_held, threads, turns) },
    );
    turn.join(&mut one, two);
    Some(turn.close(rt, one).taken)
}

// The turns of one thread under the Mutex.
fn lock_turns<R: Wait>(rt: &R, tally: &Mutex<Tally>, turns: u32) {
    for _ in 0..turns {
        let mut tally = tally.lock(rt);
        tally.taken = tally.taken.wrapping_add(1);
    }
}

fn locks_side_by_side<R: Threads + Wait + Sync>(
    rt: &R,
    tally: &Mutex<Tally>,
    threads: u32,
    turns: u32,
) {
    let half = threads / 2;
    if half == 0 {
        return lock_turns(rt, tally, turns);
    }
    let rest = threads - half;
    thread::join(
        rt,
        ||
            requires { IsSync R.row }
        { locks_side_by_side(rt, tally, half, turns) },
        ||
            requires { IsSync R.row }
        { locks_side_by_side(rt, tally, rest, turns) },
    );
}

// The same as `under_turn` under std's Mutex.
fn under_mutex<R: Threads + Wait + Sync>(rt: &R, threads: u32, turns: u32) -> u64 {
    let tally = Mutex::new(Tally { taken: 0 });
    locks_side_by_side(rt, &tally, threads, turns);
    tally.into_inner().taken
}
