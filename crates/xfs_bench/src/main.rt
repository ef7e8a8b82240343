//! The program `xfs_bench`: it does one kind of work so many times, and prints what came of it. The scripts under
//! `bench` time it. `WORK COUNT` tells how often the answer was the right one; `turn`, `mutex` and `wait` with THREADS
//! and TURNS, how many turns were taken; `serve TEXTS`, behind its port, and `ask TEXTS`, how many texts were answered.
//! `each COUNT` does each work so many times, and takes turns and asks.
#![tactic(auto)]

mod echo;
mod echo_board;
mod macs;
mod messages;
mod mixes;
mod mounting;
mod records;
mod talk;
mod tally;
mod tokens;
mod turns;
mod work;
mod works;

use crate::echo::{ask, serve};
use crate::turns::taken;
use crate::works::{WORKS, right};
use std::process::ExitCode;
use std::sync::Wait;
use std::thread::Threads;
use std::time::Clock;
use std::{env, io};

// So many threads take the turns of `each`.
const THREADS: u32 = 8;

// A turn and a text cost much less than the dearest of the works.
const TURNS_A_WORK: u32 = 500;

const TEXTS_A_WORK: u32 = 50;

// Does a work and prints its line. False where an answer was not right.
fn report(host: &HostRuntime, work: &str, count: u32) -> io::Result<bool> {
    let count = u64::from(count);
    let Some(right) = right(host.alloc(), work, count) else {
        return Ok(false);
    };
    println!(host; "{work} {count}: {right} right")?;
    Ok(right == count)
}

// Each work so many times.
fn report_works(host: &HostRuntime, count: u32) -> io::Result<bool> {
    let mut all = true;
    for work in WORKS {
        all = report(host, work, count)? && all;
    }
    Ok(all)
}

// Has so many threads take turns, and prints how many were taken.
fn report_turns<R: Threads + Wait + Clock + Sync>(
    rt: &R,
    host: &HostRuntime,
    lock: &str,
    threads: u32,
    turns: u32,
) -> io::Result<bool> {
    let Some(taken) = taken(rt, host.alloc(), lock, threads, turns) else {
        return Ok(false);
    };
    println!(host; "{lock} {threads} {turns}: {taken} taken")?;
    Ok(true)
}

// Prints how many texts were answered.
fn report_texts(host: &HostRuntime, answered: Option<u64>) -> io::Result<bool> {
    let Some(answered) = answered else {
        return Ok(false);
    };
    println!(host; "{answered} answered")?;
    Ok(true)
}

// Each work, each lock and the texts.
fn each<R: Threads + Wait + Clock + Sync>(
    rt: &R,
    host: &HostRuntime,
    count: u32,
) -> io::Result<bool> {
    let turns = count.saturating_mul(TURNS_A_WORK);
    let texts = count.saturating_mul(TEXTS_A_WORK);
    let right = report_works(host, count)?;
    let turned = report_turns(rt, host, "turn", THREADS, turns)?;
    let locked = report_turns(rt, host, "mutex", THREADS, turns)?;
    let asked = report_texts(host, ask(rt, host, texts))?;
    Ok(right && turned && locked && asked)
}

// What a word and a number name. False where they name nothing.
fn counted<R: Threads + Wait + Clock + Sync>(
    rt: &R,
    host: &HostRuntime,
    work: &str,
    count: u32,
) -> io::Result<bool> {
    match work {
        "each" => each(rt, host, count),
        "ask" => report_texts(host, ask(rt, host, count)),
        "serve" => report_texts(host, serve(host)),
        _ => report(host, work, count),
    }
}

fn words_of(host: &HostRuntime) -> io::Result<Vec<String>> {
    let mut words = Vec::new(host.alloc());
    for word in env::args(host)?.skip(1) {
        words.push(word)?;
    }
    Ok(words)
}

fn run<R: Threads + Wait + Clock + Sync>(rt: &R, host: &HostRuntime) -> io::Result<bool> {
    let words = words_of(host)?;
    match words.as_slice() {
        [work, count] => match count.parse::<u32>() {
            Ok(count) => counted(rt, host, work, count),
            Err(_) => Ok(false),
        },
        [lock, threads, turns] => match (threads.parse::<u32>(), turns.parse::<u32>()) {
            (Ok(threads), Ok(turns)) => report_turns(rt, host, lock, threads, turns),
            _ => Ok(false),
        },
        _ => Ok(false),
    }
}

fn main(rt: HostRuntime) -> ExitCode {
    match run(&rt, &rt) {
        Ok(true) => ExitCode::from(0),
        Ok(false) | Err(_) => ExitCode::from(1),
    }
}
