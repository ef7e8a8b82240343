ghost use Rattle.std.specs.Prelude.{◌≡◌, ◌+◌, ◌*◌, ◌^◌, ◌<◌};
ghost use Rattle.std.specs.Thread.{IsSync};
ghost use mathlib.Core.List.{IsPrefix};

use std::alloc::{AllocError, Global};
use std::sync::Wait;
use std::test::Fail;
use std::thread;
use std::thread::Threads;
use xfs_base::Memory;
use xfs_turn::{Chronicle, Seat, Turn};

/// Numbers in the order in which they came.
#[derive(Drop)]
struct Log {
    numbers: Vec<u64>,
}

impl Chronicle for Log {
    type Entry = u64;

    ghost list = { λ log. log.numbers.items };

    fn count(&self) -> u64 {
        self.numbers.len() as u64
    }
}

impl Log {
    fn new(alloc: Global) -> Log {
        Log {
            numbers: Vec::new(alloc),
        }
    }

    // False where memory ran out.
    fn append(&mut self, number: u64) -> bool
        ensures grown { IsPrefix self.old.numbers.items self.new.numbers.items }
    {
        self.numbers.push(number).is_ok()
    }
}

// One turn, in which a number is appended.
fn append<R: Wait>(rt: &R, turn: &Turn<Log>, seat: Seat<Log>, number: u64) -> Seat<Log>
    requires lock { seat.lock ≡ turn.now }
    ensures lock { result.lock ≡ turn.now }
{
    let mut held = turn.enter(rt, seat);
    held.value().append(number);
    turn.leave(held)
}

// Two threads append a number each: what the kept seat has seen after both joins, and the list at the end.
fn both<R: Threads + Wait + Sync>(rt: &R, alloc: Global) -> Result<(u64, Log), Memory> {
    let (turn, mut seat) = match Turn::new(alloc, Log::new(alloc)) {
        Ok(made) => made,
        Err((_, memory)) => return Err(memory),
    };
    let one = turn.split(&mut seat)?;
    let two = turn.split(&mut seat)?;
    let lock = &turn;
    let (one, two) = thread::join(
        rt,
        || -> Seat<Log>
            requires { one.lock ≡ lock.now }
            ensures { result.lock ≡ lock.entry.now }
        { append(rt, lock, one, 1) },
        || -> Seat<Log>
            requires { two.lock ≡ lock.now }
            ensures { result.lock ≡ lock.entry.now }
        { append(rt, lock, two, 2) },
    );
    turn.join(&mut seat, one);
    turn.join(&mut seat, two);
    let seen = seat.seen();
    Ok((seen, turn.close(rt, seat)))
}

#[test]
fn two_seats_append_a_number_each(rt: HostRuntime) -> Result<(), Fail> {
    let (seen, log) = both(&rt, rt.alloc())?;
    assert!(rt; seen == 2);
    let numbers = log.numbers.as_slice();
    assert!(rt; numbers == [1, 2].as_slice() || numbers == [2, 1].as_slice());
    Ok(())
}

const TURNS: u64 = 10_000;

/// What a thread gives back: its seat, and whether it found all that it had seen.
#[derive(Drop)]
struct Report {
    seat: Seat<Log>,
    right: bool,
}

impl Log {
    // A turn of a thread: the list is no shorter than what was seen, the thread's last number stands
    // at its place, and the next one is appended.
    fn goes_on(&mut self, seen: u64, place: usize, number: u64) -> bool
        ensures grown { IsPrefix self.old.numbers.items self.new.numbers.items }
    {
        let found = self.count() >= seen
            && (number % TURNS == 0 || self.numbers.get(place) == Some(&(number - 1)));
        self.append(number) && found
    }

    fn copy(&self, alloc: Global) -> Result<Vec<u64>, AllocError> {
        let mut numbers = Vec::with_capacity(alloc, self.numbers.len())?;
        numbers.extend_from_slice(&self.numbers)?;
        Ok(numbers)
    }
}

// One thread's turns: it appends the numbers from `first` on.
fn turns<R: Wait>(
    rt: &R,
    alloc: Global,
    turn: &Turn<Log>,
    mut seat: Seat<Log>,
    first: u64,
) -> Report
    requires lock { seat.lock ≡ turn.now }
    requires first { first < 2 ^ 32 }
    ensures lock { result.seat.lock ≡ turn.now }
{
    let mut right = true;
    let mut place = 0;
    for number in first..first + TURNS {
        let seen = seat.seen();
        let mut held = turn.enter(rt, seat);
        let next = held.value().numbers.len();
        right &= held.value().goes_on(seen, place, number);
        place = next;
        seat = turn.leave(held);
    }
    let Report { seat, right: whole } = whole_prefix(rt, alloc, turn, seat);
    Report {
        seat,
        right: right && whole,
    }
}

// Copies the list in one turn, and finds in a later one that the list begins with the copy.
fn whole_prefix<R: Wait>(rt: &R, alloc: Global, turn: &Turn<Log>, seat: Seat<Log>) -> Report
    requires lock { seat.lock ≡ turn.now }
    ensures lock { result.seat.lock ≡ turn.now }
{
    let mut held = turn.enter(rt, seat);
    let prefix = held.value().copy(alloc);
    let mut held = turn.enter(rt, turn.leave(held));
    let right = match prefix {
        Ok(prefix) => held.value().numbers.starts_with(&prefix),
        Err(_) => false,
    };
    Report {
        seat: turn.leave(held),
        right,
    }
}

// So many threads at once, each from a multiple of `TURNS` on.
fn side_by_side<R: Threads + Wait + Sync>(
    rt: &R,
    alloc: Global,
    turn: &Turn<Log>,
    mut seat: Seat<Log>,
    first: u64,
    threads: u64,
) -> Report
    requires lock { seat.lock ≡ turn.now }
    requires first { first + threads * 10000 < 2 ^ 32 }
    ensures lock { result.seat.lock ≡ turn.now }
{
    let half = threads / 2;
    if half == 0 {
        return turns(rt, alloc, turn, seat, first);
    }
    let Ok(other) = turn.split(&mut seat) else {
        return Report { seat, right: false };
    };
    let (one, two) = thread::join(
        rt,
        || -> Report
            requires { IsSync R.row × (seat.lock ≡ turn.now) × (first + half * 10000 < 2 ^ 32) }
            ensures { result.seat.lock ≡ turn.entry.now }
        { side_by_side(rt, alloc, turn, seat, first, half) },
        || -> Report
            requires { IsSync R.row × (other.lock ≡ turn.now) × ((first + half * 10000) + half * 10000 < 2 ^ 32) }
            ensures { result.seat.lock ≡ turn.entry.now }
        { side_by_side(rt, alloc, turn, other, first + half * TURNS, half) },
    );
    let Report { mut seat, right } = one;
    turn.join(&mut seat, two.seat);
    Report {
        seat,
        right: right && two.right,
    }
}

// Whether these are the numbers from 0 on, each once.
fn are_all(alloc: Global, numbers: &[u64]) -> Result<bool, AllocError> {
    let mut sorted = Vec::with_capacity(alloc, numbers.len())?;
    sorted.extend_from_slice(numbers)?;
    sorted.sort()?;
    Ok(
        sorted
            .iter()
            .enumerate()
            .all(|(place, number)| place as u64 == *number),
    )
}

#[test]
fn eight_threads_find_what_they_saw(rt: HostRuntime) -> Result<(), Fail> {
    let alloc = rt.alloc();
    let (turn, seat) = Turn::new(alloc, Log::new(alloc)).map_err(|(_, memory)| memory)?;
    let report = side_by_side(&rt, alloc, &turn, seat, 0, 8);
    assert!(rt; report.right);
    assert!(rt; report.seat.seen() == 8 * TURNS);
    let log = turn.close(&rt, report.seat);
    assert!(rt; log.count() == 8 * TURNS);
    assert!(rt; are_all(alloc, &log.numbers)?);
    Ok(())
}
