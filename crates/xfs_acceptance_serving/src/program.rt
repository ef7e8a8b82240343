//! The program over a bench in memory.

ghost use Rattle.std.specs.Prelude.{IfOk};
ghost use Rattle.xfs_guard.specs.Starts.{Starts};

use crate::bench::{core, watch_of};
use crate::links::link_of;
use crate::words::{number, word};
use std::alloc::Global;
use std::fmt::Write;
use std::sync::Wait;
use std::test::Fail;
use std::thread::Threads;
use xfs_base::{Clock, MemSink, MemSource, Service};
use xfs_cli::{Ended, run};
use xfs_disk::{Disk, FailDisk};
use xfs_guard::Bench;
use xfs_mech::{Mechanism, SimMech, SimWatch};
use xfs_server::{Doors, Gate, MemDoors, OpenGate};
use xfs_simulated::second_core;

// A call of the top call that says nothing of what it did, and what was written.
fn run_on<
    R: Threads + Wait + Sync,
    M: Mechanism + Send,
    D: Disk + Send,
    C: Clock + Sync,
    O: Doors,
    G: Gate + Sync,
>(
    rt: &R,
    alloc: Global,
    words: &[String],
    mut source: MemSource,
    bench: Bench<M, D, SimWatch, SimWatch>,
    clock: &C,
    doors: &mut O,
    gate: &G,
) -> (Ended<M, D, O::Link>, MemSink)
    requires starts { Starts M.Mechanism D.Disk bench.core }
    requires second { Starts M.Mechanism D.Disk bench.second }
{
    let mut sink = MemSink::new(alloc, Vec::new(alloc));
    let ended = run(
        rt,
        alloc,
        words,
        &mut source,
        &mut sink,
        bench,
        clock,
        doors,
        gate,
    );
    (ended, sink)
}

// A card is put in and a key is pressed as soon as they are waited for. No server touches the second machine.
fn bench(alloc: Global, failing: u64) -> Result<Bench<SimMech, FailDisk, SimWatch, SimWatch>, Fail>
    ensures starts { IfOk result (λ b. Starts ⟦<SimMech as Mechanism>⟧ ⟦<FailDisk as Disk>⟧ b.core) }
    ensures second { IfOk result (λ b. Starts ⟦<SimMech as Mechanism>⟧ ⟦<FailDisk as Disk>⟧ b.second) }
{
    let cards = watch_of(alloc, "card")?;
    let keys = watch_of(alloc, "one")?;
    let second = second_core(alloc).ok_or("the second machine")?;
    Ok(Bench {
        core: core(alloc, failing)?,
        cards,
        keys,
        second,
    })
}

// The words of a command line, joined by commas.
fn words_of(alloc: Global, line: &str) -> Result<Vec<String>, Fail> {
    let mut words = Vec::new(alloc);
    for word in line.split(',') {
        words.push(String::from_str(alloc, word)?)?;
    }
    Ok(words)
}

/// Runs the program with the words of a case on one line of input, over a disk whose call at the place that the case
/// names last fails. It tells the status, how many bytes stand in the journal, and what was written.
pub fn tell_run<R: Threads + Wait + Sync, C: Clock + Sync, O: Doors, G: Gate + Sync>(
    rt: &R,
    alloc: Global,
    given: &str,
    clock: &C,
    doors: &mut O,
    gate: &G,
    told: &mut String,
) -> Result<Option<O::Link>, Fail> {
    let source = MemSource::new(Vec::from_slice(alloc, b"issue\n")?, Vec::new(alloc));
    let words = words_of(alloc, word(given, 0))?;
    let bench = bench(alloc, number(given, 4))?;
    let (ended, sink) = run_on(rt, alloc, &words, source, bench, clock, doors, gate);
    tell_ended(told, ended, sink.bytes())
}

fn tell_ended<M: Mechanism, L: Drop>(
    told: &mut String,
    ended: Ended<M, FailDisk, L>,
    written: &[u8],
) -> Result<Option<L>, Fail> {
    let Ended {
        status,
        mech,
        disk,
        link,
        second,
    } = ended;
    drop(mech);
    drop(second);
    let journal = length_of(disk);
    let written = str::from_utf8(written).unwrap_or("?");
    write!(told, "{status} {journal}\n{written}")?;
    Ok(link)
}

fn length_of(disk: FailDisk) -> usize {
    let disk = disk.inner();
    disk.bytes().len()
}

/// What is told by the program over doors in memory, and how many texts the dialled link was sent: its words, which call
/// of the doors fails, whether a link closes behind the texts of the case, and how many links come.
pub fn told_in_memory<R: Threads + Wait + Sync, C: Clock + Sync>(
    rt: &R,
    alloc: Global,
    given: &str,
    clock: &C,
) -> Result<String, Fail> {
    let mut doors = doors_of(alloc, given, word(given, 2) == "closes")?;
    let mut told = String::new(alloc);
    match tell_run(rt, alloc, given, clock, &mut doors, &OpenGate, &mut told)? {
        Some(link) => write!(told, "{}\n", link.sent().len())?,
        None => told.push_str("-\n")?,
    }
    Ok(told)
}

fn doors_of(alloc: Global, given: &str, closes: bool) -> Result<MemDoors, Fail> {
    let mut coming = Vec::new(alloc);
    for _ in 0..number(given, 3) {
        coming.push((Service::Card, link_of(alloc, given, closes, 0, 0)?))?;
    }
    let dialled = link_of(alloc, given, closes, 0, 0)?;
    let failing = Vec::from_slice(alloc, &[number(given, 1)])?;
    Ok(MemDoors::new(coming, Some(dialled), failing))
}
