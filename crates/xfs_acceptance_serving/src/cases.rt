//! Plays the cases of a table: each tells what came of it, and that is what is due.

use crate::bench::machine;
use crate::lock::{case_of, told_at_lock};
use crate::program::told_in_memory;
use crate::servers::told_by_clients;
use crate::words::{cut_at, number};
use std::alloc::Global;
use std::sync::Wait;
use std::test::Fail;
use std::thread::Threads;
use std::time;
use xfs_base::{FixedClock, StdClock};

/// Plays the cases of a table, up to the first that tells something else than is due. An empty line parts them; behind
/// the line's end and `=> ` stands what is due.
pub fn play<R: Threads + Wait + time::Clock + Sync>(
    rt: &R,
    alloc: Global,
    table: &str,
) -> Result<(), Fail> {
    for case in table.split("\n\n") {
        let (given, due) = cut_at(case, "\n=> ");
        let told = told_of(rt, alloc, given)?;
        if told.as_str().trim_end() != due {
            return Err(Fail::new(format_args!("{given}\ntold {told}")));
        }
    }
    Ok(())
}

// What came of a case, by the kind that its first word names.
fn told_of<R: Threads + Wait + time::Clock + Sync>(
    rt: &R,
    alloc: Global,
    case: &str,
) -> Result<String, Fail> {
    let (kind, given) = cut_at(case, " ");
    match kind {
        "server" | "run" => told_by_clients(rt, alloc, kind, given),
        "serve" => told_in_memory(rt, alloc, given, &StdClock::new(rt)),
        "client" => told_in_memory(rt, alloc, given, &FixedClock(0)),
        _ => told_by_machine(rt, alloc, kind, given),
    }
}

fn told_by_machine<R: Wait>(
    rt: &R,
    alloc: Global,
    kind: &str,
    given: &str,
) -> Result<String, Fail> {
    let mut case = case_of(alloc, kind, given)?;
    let machine = machine(alloc)?;
    told_at_lock(rt, alloc, machine, &mut case, number(given, 3))
}
