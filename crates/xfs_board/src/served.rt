//! A machine that serves its connections.

ghost use Rattle.std.specs.Prelude.{◌≡◌};
ghost use mathlib.Core.List.{IsPrefix};
ghost use Rattle.xfs_guard.specs.Keeps.{Proceeds};
ghost use Rattle.xfs_machine.specs.MachineView.{guard_of};
ghost use Rattle.xfs_serving.specs.Takings.{Takes};

use crate::backend::MachineBackend;
use crate::caller::{Caller, LockName};
use crate::shared::{SharedMachine, close, open};
use std::alloc::Global;
use std::marker::Brand;
use std::sync::Wait;
use std::sync::atomic::AtomicBool;
use std::thread::Threads;
use xfs_base::Clock;
use xfs_disk::Disk;
use xfs_machine::Machine;
use xfs_mech::{Mechanism, Watch};
use xfs_server::{Doors, Gate};
use xfs_serving::{CardWatch, Ending, KeyWatch, serve};
use xfs_turn::{Seat, Turn};

/// A machine that has served its connections, and how that ended.
#[derive(Drop)]
pub struct Served<M: Mechanism, D: Disk> {
    pub ending: Ending,
    pub machine: Machine<M, D>,
}

/// Takes `count` connections at the doors and serves them at once, each in a session of its own, while
/// the workers of the card slot, the key pad and the outlet tend them. The machine comes back once all
/// sessions and all workers have ended.
pub fn serve_connections<
    R: Threads + Wait + Sync,
    M: Mechanism + Send,
    D: Disk + Send,
    O: Doors,
    C: Clock + Sync,
    G: Gate + Sync,
    P: Watch + Send,
    Q: Watch + Send,
>(
    rt: &R,
    alloc: Global,
    count: u32,
    machine: Machine<M, D>,
    doors: &mut O,
    clock: &C,
    gate: &G,
    cards: CardWatch<P>,
    keys: KeyWatch<Q>,
) -> Served<M, D>
    // It has served only where all connections came, and failed only where the doors did. It dials none.
    ensures doors { Takes count result.ending (O.log doors.old) (O.log doors.new) }

    // The machine that comes back goes on from the one that was handed in, by calls of its guard alone.
    ensures proceeds { Proceeds D.Disk (guard_of machine) (guard_of result.machine) }
{
    let (turn, seat) = match open(alloc, machine) {
        Ok(opened) => opened,
        Err((machine, _)) => {
            return Served {
                ending: Ending::Memory,
                machine,
            };
        }
    };
    let (ending, seat) = serve_at::<Brand, R, M, D, O, C, G, P, Q>(
        rt, alloc, count, &turn, seat, doors, clock, gate, cards, keys,
    );
    Served {
        ending,
        machine: close(rt, turn, seat),
    }
}

// Serves from a seat at the lock that `N` names, into which all others are joined.
fn serve_at<
    N: LockName + Send,
    R: Threads + Wait + Sync,
    M: Mechanism + Send,
    D: Disk + Send,
    O: Doors,
    C: Clock + Sync,
    G: Gate + Sync,
    P: Watch + Send,
    Q: Watch + Send,
>(
    rt: &R,
    alloc: Global,
    count: u32,
    turn: &Turn<SharedMachine<M, D>>,
    seat: Seat<SharedMachine<M, D>>,
    doors: &mut O,
    clock: &C,
    gate: &G,
    cards: CardWatch<P>,
    keys: KeyWatch<Q>,
) -> (Ending, Seat<SharedMachine<M, D>>)
    requires name { turn.now ≡ N.lock }
    requires lock { seat.lock ≡ N.lock }
    ensures doors { Takes count result.0 (O.log doors.old) (O.log doors.new) }
    ensures lock { result.1.lock ≡ N.lock }
    ensures seen { IsPrefix seat.seen result.1.seen }
{
    let ended = AtomicBool::new(false);
    let backend: MachineBackend<N, M, D, R, C> = MachineBackend {
        alloc,
        caller: Caller::new(rt, turn, seat),
        clock,
        ended: &ended,
    };
    let (ending, backend) = serve(rt, alloc, count, backend, doors, clock, gate, cards, keys);
    (ending, backend.into_seat())
}
