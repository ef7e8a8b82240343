ghost use Rattle.std.specs.Prelude.{◌≡◌, IfOk, IfErr};
ghost use mathlib.Core.List.{IsPrefix};
ghost use Rattle.xfs_serving.specs.Takings.{EndsTaking, Takes, faults_in, looked};
ghost use Rattle.xfs_serving.specs.declared.ending.Ending.TheVariants as Ending;

use crate::backend::Backend;
use crate::ending::Ending;
use crate::hall::{Hall, Signals};
use crate::staff::{Jobs, Staff};
use crate::watches::{CardWatch, KeyWatch};
use std::alloc::Global;
use std::sync::Wait;
use std::sync::atomic::Ordering;
use std::thread;
use std::thread::{Scope, Threads};
use xfs_base::{Clock, Memory};
use xfs_mech::Watch;
use xfs_server::{Backoff, Bell, Door, Doors, Gate};

// The longest pause at the doors, in milliseconds: by so much later a connection is let in.
const LONGEST_PAUSE: u64 = 16;

/// Takes `count` connections and serves each in a session of its own, with a worker at the card slot, the
/// key pad and the outlet. It returns once all sessions have ended.
pub fn serve<
    R: Threads + Wait + Sync,
    H: Backend + Send + Drop,
    O: Doors,
    C: Clock + Sync,
    G: Gate + Sync,
    P: Watch + Send,
    Q: Watch + Send,
>(
    rt: &R,
    alloc: Global,
    count: u32,
    backend: H,
    doors: &mut O,
    clock: &C,
    gate: &G,
    cards: CardWatch<P>,
    keys: KeyWatch<Q>,
) -> (Ending, H)
    ensures doors { Takes count result.0 (O.log doors.old) (O.log doors.new) }
    ensures seen { IsPrefix (H.seen backend) (H.seen result.1) }
{
    let signals = Signals::new();
    let hall = Hall {
        rt,
        alloc,
        clock,
        gate,
        signals: &signals,
    };
    let (ending, backend, back) = in_scope(&hall, count, backend, cards, keys, doors);
    let _back = back;
    (ending, backend)
}

// The scope of all threads. It gives the doors back, so that a caller knows what became of them.
fn in_scope<
    'a,
    R: Threads + Wait + Sync,
    H: Backend + Send + Drop,
    O: Doors,
    C: Clock + Sync,
    G: Gate + Sync,
    P: Watch + Send,
    Q: Watch + Send,
>(
    hall: &Hall<R, C, G>,
    count: u32,
    backend: H,
    cards: CardWatch<P>,
    keys: KeyWatch<Q>,
    doors: &'a mut O,
) -> (Ending, H, &'a mut O)
    ensures same { result.2.ghost_name ≡ doors.entry.ghost_name }
    ensures doors { Takes count result.0 (O.log doors.entry.now) (O.log result.2.now) }
    ensures seen { IsPrefix (H.seen backend) (H.seen result.1) }
{
    thread::scope(
        thread::scope_env(),
        hall.rt,
        move |scope| -> (Ending, H, &mut O)
            ensures same { result.2.ghost_name ≡ doors.entry.ghost_name }
            ensures doors { Takes count result.0 (O.log doors.entry.now) (O.log result.2.now) }
            ensures seen { IsPrefix (H.seen backend) (H.seen result.1) }
        {
            let (ending, backend) = open_and_close(scope, hall, count, backend, cards, keys, doors);
            (ending, backend, doors)
        },
    )
}

// Starts the workers, takes the connections, and ends when all sessions and then all workers have ended.
fn open_and_close<
    's,
    E,
    R: Threads + Wait + Sync,
    H: Backend + Send + 's,
    O: Doors,
    C: Clock + Sync,
    G: Gate + Sync,
    P: Watch + Send + 's,
    Q: Watch + Send + 's,
>(
    scope: &Scope<'s, E>,
    hall: &Hall<'s, R, C, G>,
    count: u32,
    mut backend: H,
    cards: CardWatch<P>,
    keys: KeyWatch<Q>,
    doors: &mut O,
) -> (Ending, H)
where
    O::Link: 's,
    ensures doors { Takes count result.0 (O.log doors.old) (O.log doors.new) }
    ensures seen { IsPrefix (H.seen backend) (H.seen result.1) }
{
    let jobs = match Jobs::new(&mut backend, cards, keys) {
        Ok(jobs) => jobs,
        Err(Memory) => return (Ending::Memory, backend),
    };
    let mut staff = Staff::open(scope, hall, backend, jobs);
    let ending = take_all(scope, hall, count, &mut staff, doors);
    staff.drain(hall);
    let backend = staff.dismiss(hall);
    (after_workers(ending, hall.signals), backend)
}

// Takes connections until all have come.
fn take_all<
    's,
    E,
    R: Threads + Wait + Sync,
    H: Backend + Send + 's,
    O: Doors,
    C: Clock + Sync,
    G: Gate + Sync,
    P: Watch + Send,
    Q: Watch + Send,
>(
    scope: &Scope<'s, E>,
    hall: &Hall<'s, R, C, G>,
    count: u32,
    staff: &mut Staff<H, P, Q>,
    doors: &mut O,
) -> Ending
where
    O::Link: 's,
    ensures doors { Takes count result (O.log doors.old) (O.log doors.new) }
    ensures seen { IsPrefix (H.seen staff.old.backend) (H.seen staff.new.backend) }
{
    let mut taken = 0;
    // Nobody rings it.
    let bell = Bell::new();
    let mut backoff = Backoff::up_to(LONGEST_PAUSE, &bell);
    for _ in hall.rt.forever() {
        if taken == count {
            return Ending::Served;
        }
        backoff.begin_look();
        match door_turn(scope, hall, staff, doors) {
            Ok(true) => {
                taken += 1;
                backoff.reset();
            }
            Ok(false) => await_visitor(hall, &mut backoff),
            Err(ending) => return ending,
        }
    }
    unreachable!()
}

// One look at the doors: true where a connection came. The sessions that have ended are joined before.
fn door_turn<
    's,
    E,
    R: Threads + Wait + Sync,
    H: Backend + Send + 's,
    O: Doors,
    C: Clock + Sync,
    G: Gate + Sync,
    P: Watch + Send,
    Q: Watch + Send,
>(
    scope: &Scope<'s, E>,
    hall: &Hall<'s, R, C, G>,
    staff: &mut Staff<H, P, Q>,
    doors: &mut O,
) -> Result<bool, Ending>
where
    O::Link: 's,
    ensures ok { IfOk result (λ came. O.log doors.new ≡ looked came (O.log doors.old)) }
    ensures err { IfErr result (λ ending. EndsTaking ending (O.log doors.old) (O.log doors.new)) }
    ensures seen { IsPrefix (H.seen staff.old.backend) (H.seen staff.new.backend) }
{
    staff.reap(hall.rt);
    staff.turn(hall.signals);
    if hall.signals.starved.load(Ordering::SeqCst) {
        return Err(Ending::Memory);
    }
    match doors.next() {
        Door::Came(service, link) => match staff.admit(scope, hall, service, link) {
            Ok(()) => Ok(true),
            Err(Memory) => Err(Ending::Memory),
        },
        Door::Quiet => Ok(false),
        Door::Failed => Err(Ending::Failed),
        Door::Memory => Err(Ending::Memory),
    }
}

// Nobody came. The pauses stay short where the loop makes the rounds of a worker.
fn await_visitor<R: Wait, C: Clock, G>(hall: &Hall<R, C, G>, backoff: &mut Backoff<'_>) {
    if hall.signals.is_any_here() {
        hall.clock.pause();
    } else {
        backoff.pause(hall.rt, hall.clock);
    }
}

// A worker that ended for want of memory ends the server so, where nothing else has ended it.
fn after_workers(ending: Ending, signals: &Signals) -> Ending
    ensures served { result ≡ Ending.Served → ending ≡ Ending.Served }
    ensures faults { faults_in result ≡ faults_in ending }
{
    match ending {
        Ending::Served if signals.starved.load(Ordering::SeqCst) => Ending::Memory,
        _ => ending,
    }
}
