//! Servers whose sessions and workers run side by side.

use crate::bench::{machine, watch_of};
use crate::doors::PatientDoors;
use crate::machines::tell_machine;
use crate::program::tell_run;
use crate::scene::Scene;
use crate::words::{number, word};
use std::alloc::Global;
use std::fmt::Write;
use std::sync::Wait;
use std::test::Fail;
use std::thread::Threads;
use std::time;
use xfs_base::{Clock, StdClock};
use xfs_board::{Served, serve_connections};
use xfs_disk::Disk;
use xfs_machine::Machine;
use xfs_mech::{Mechanism, SimWatch};
use xfs_server::{Doors, Gate};
use xfs_serving::{CardWatch, KeyWatch};

// A call that says nothing of what it did.
fn served<
    R: Threads + Wait + Sync,
    M: Mechanism + Send,
    D: Disk + Send,
    O: Doors,
    C: Clock + Sync,
    G: Gate + Sync,
>(
    rt: &R,
    alloc: Global,
    count: u32,
    machine: Machine<M, D>,
    doors: &mut O,
    clock: &C,
    gate: &G,
    (cards, keys): (CardWatch<SimWatch>, KeyWatch<SimWatch>),
) -> Served<M, D> {
    serve_connections(rt, alloc, count, machine, doors, clock, gate, cards, keys)
}

// Has the simulated machine serve. A card is put in and a key is pressed as soon as they are waited for.
fn tell_server<R: Threads + Wait + Sync, O: Doors, C: Clock + Sync, G: Gate + Sync>(
    rt: &R,
    alloc: Global,
    count: u32,
    doors: &mut O,
    clock: &C,
    gate: &G,
    told: &mut String,
) -> Result<(), Fail> {
    let cards = CardWatch(watch_of(alloc, "card")?);
    let keys = KeyWatch(watch_of(alloc, "one")?);
    let machine = machine(alloc)?;
    let watches = (cards, keys);
    let served = served(rt, alloc, count, machine, doors, clock, gate, watches);
    tell_served(told, &served)
}

fn tell_served<M: Mechanism, D: Disk>(
    told: &mut String,
    served: &Served<M, D>,
) -> Result<(), Fail> {
    write!(told, "{:?} ", served.ending)?;
    tell_machine(told, &served.machine)
}

/// What is told by a server, or the program's, and then of its clients: how many connections it takes or the program's
/// words, whether the doors fail once all have come, until when the gate holds how many clients back, and their letters.
pub fn told_by_clients<R: Threads + Wait + time::Clock + Sync>(
    rt: &R,
    alloc: Global,
    kind: &str,
    given: &str,
) -> Result<String, Fail> {
    let clock = StdClock::new(rt);
    let (doors, gate) = (word(given, 1), word(given, 2));
    let scene = Scene::new(&clock, number(given, 3), gate == "let_go");
    let mut doors = PatientDoors::new(alloc, word(given, 4), doors == "fail", &scene);
    told_by_doors(rt, alloc, kind, given, &clock, &mut doors, &scene)
}

fn told_by_doors<R: Threads + Wait + Sync, O: Doors, C: Clock + Sync>(
    rt: &R,
    alloc: Global,
    kind: &str,
    given: &str,
    clock: &C,
    doors: &mut O,
    scene: &Scene<'_, C>,
) -> Result<String, Fail> {
    let mut told = String::new(alloc);
    if kind == "run" {
        tell_run(rt, alloc, given, clock, doors, scene, &mut told)?;
    } else {
        let count = word(given, 0).parse::<u32>().unwrap_or(0);
        tell_server(rt, alloc, count, doors, clock, scene, &mut told)?;
    }
    scene.tell(&mut told)?;
    Ok(told)
}
