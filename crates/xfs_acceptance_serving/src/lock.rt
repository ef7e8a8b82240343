//! Callers, sessions and workers at the lock over a machine.

ghost use Rattle.std.specs.Prelude.{◌≡◌, IfOk};

use crate::bench::watch_of;
use crate::callers::{fetched, joined, posts, second, seen_by, session, works, works_on};
use crate::clock::StepClock;
use crate::links::{link_of, tell_frames};
use crate::machines::tell_machine;
use crate::words::{cut_at, number, service_of, word};
use std::alloc::Global;
use std::fmt::{Debug, Write};
use std::marker::Brand;
use std::sync::Wait;
use std::test::Fail;
use xfs_base::{Bytes, Service};
use xfs_board::{Caller, ClientBoard, DeviceBoard, LockName, SharedMachine, close, open};
use xfs_disk::Disk;
use xfs_machine::{Machine, Pass};
use xfs_mech::{Mechanism, SimWatch};
use xfs_server::{MemLink, Over};
use xfs_turn::{Seat, Turn};

#[derive(Drop, Clone, Copy)]
enum Kind {
    Session,
    Sessions,
    Worker,
    Callers,
}

/// What is done at the lock, and with what: two services with their links, a watch, and a command.
#[derive(Drop)]
pub struct Case {
    kind: Kind,
    service: Service,
    beside: Service,
    link: MemLink,
    other: MemLink,
    watch: SimWatch,
    command: Bytes,
}

/// The case of a kind and of its lines.
pub fn case_of(alloc: Global, kind: &str, given: &str) -> Result<Case, Fail> {
    let kind = kind_of(kind).ok_or("a kind of case")?;
    let (first, other) = cut_at(given, "\nbeside ");
    let command = Vec::from_slice(alloc, cut_at(given, "> ").1.as_bytes())?;
    let watch = watch_of(alloc, word(given, 1))?;
    let link = link_by(alloc, first)?;
    Ok(Case {
        kind,
        service: service_of(first),
        beside: service_of(other),
        other: link_by(alloc, other)?,
        link,
        watch,
        command: Bytes::new(command),
    })
}

fn kind_of(word: &str) -> Option<Kind> {
    match word {
        "session" => Some(Kind::Session),
        "sessions" => Some(Kind::Sessions),
        "worker" => Some(Kind::Worker),
        "callers" => Some(Kind::Callers),
        _ => None,
    }
}

// The link of a line of a service, the take and the give that fail, and the texts behind it.
fn link_by(alloc: Global, given: &str) -> Result<MemLink, Fail> {
    link_of(alloc, given, true, number(given, 1), number(given, 2))
}

/// What is told at the lock over a machine, and then by the machine. The clock goes on by so many milliseconds a step.
pub fn told_at_lock<M: Mechanism, D: Disk, R: Wait>(
    rt: &R,
    alloc: Global,
    machine: Machine<M, D>,
    case: &mut Case,
    step: u64,
) -> Result<String, Fail> {
    let clock = StepClock::new(step);
    let (turn, seat) = opened(alloc, machine)?;
    let (seat, told) = told_by_callers::<Brand, M, D, R>(rt, alloc, &clock, &turn, seat, case);
    told_then(told, &close(rt, turn, seat))
}

fn told_then<M: Mechanism, D: Disk>(
    told: Result<String, Fail>,
    machine: &Machine<M, D>,
) -> Result<String, Fail> {
    let mut told = told?;
    tell_machine(&mut told, machine)?;
    Ok(told)
}

fn opened<M: Mechanism, D: Disk>(
    alloc: Global,
    machine: Machine<M, D>,
) -> Result<(Turn<SharedMachine<M, D>>, Seat<SharedMachine<M, D>>), Fail>
    ensures lock { IfOk result (λ t. t.1.lock ≡ t.0) }
{
    match open(alloc, machine) {
        Ok(opened) => Ok(opened),
        Err((_, memory)) => Err(memory.into()),
    }
}

fn told_by_callers<N: LockName, M: Mechanism, D: Disk, R: Wait>(
    rt: &R,
    alloc: Global,
    clock: &StepClock,
    turn: &Turn<SharedMachine<M, D>>,
    seat: Seat<SharedMachine<M, D>>,
    case: &mut Case,
) -> (Seat<SharedMachine<M, D>>, Result<String, Fail>)
    requires name { turn.now ≡ N.lock }
    requires lock { seat.lock ≡ N.lock }
    ensures lock { result.0.lock ≡ N.lock }
{
    let caller: Caller<'_, N, _, _, R> = Caller::new(rt, turn, seat);
    let (caller, told) = told_by(rt, alloc, clock, caller, case);
    (caller.into_seat(), told)
}

fn told_by<'a, N: LockName, M: Mechanism, D: Disk, R: Wait>(
    rt: &R,
    alloc: Global,
    clock: &'a StepClock,
    caller: Caller<'a, N, M, D, R>,
    case: &mut Case,
) -> (Caller<'a, N, M, D, R>, Result<String, Fail>) {
    match case.kind {
        Kind::Session => told_by_session(alloc, clock, caller, case),
        Kind::Sessions => told_by_both(alloc, clock, caller, case),
        Kind::Worker => told_by_worker(rt, alloc, clock, caller, case),
        Kind::Callers => told_by_second(alloc, caller, case),
    }
}

// A session, which leaves the machine at its end.
fn told_by_session<'a, N: LockName, M: Mechanism, D: Disk, R: Wait>(
    alloc: Global,
    clock: &'a StepClock,
    mut caller: Caller<'a, N, M, D, R>,
    case: &mut Case,
) -> (Caller<'a, N, M, D, R>, Result<String, Fail>) {
    let Some(pass) = joined(&mut caller, case.service) else {
        return (caller, Err("a connection".into()));
    };
    let client = pass.client();
    let mut board = ClientBoard::new(alloc, caller, pass, clock);
    let over = session(&mut case.link, &mut board, clock, client);
    (board.leave(), told_of(alloc, &over, case.link.sent()))
}

// Two clients connect; a session is served over the one's link and then over the other's, and both leave.
fn told_by_both<'a, N: LockName, M: Mechanism, D: Disk, R: Wait>(
    alloc: Global,
    clock: &'a StepClock,
    mut one: Caller<'a, N, M, D, R>,
    case: &mut Case,
) -> (Caller<'a, N, M, D, R>, Result<String, Fail>) {
    let Some((two, first, other)) = both_joined(&mut one, case) else {
        return (one, Err("two connections".into()));
    };
    let (first_client, other_client) = (first.client(), other.client());
    let mut first = ClientBoard::new(alloc, one, first, clock);
    let mut other = ClientBoard::new(alloc, two, other, clock);
    let first_over = session(&mut case.link, &mut first, clock, first_client);
    let other_over = session(&mut case.other, &mut other, clock, other_client);
    let mut one = first.leave();
    one.merge(other.leave());
    (one, told_of_both(alloc, first_over, other_over, case))
}

fn both_joined<'a, N: LockName, M: Mechanism, D: Disk, R: Wait>(
    one: &mut Caller<'a, N, M, D, R>,
    case: &Case,
) -> Option<(Caller<'a, N, M, D, R>, Pass, Pass)> {
    let mut two = second(one)?;
    let first = joined(one, case.service)?;
    let other = joined(&mut two, case.beside)?;
    Some((two, first, other))
}

// A command is posted, and the worker of its service works until it has nothing to do.
fn told_by_worker<'a, N: LockName, M: Mechanism, D: Disk, R: Wait>(
    rt: &R,
    alloc: Global,
    clock: &'a StepClock,
    mut caller: Caller<'a, N, M, D, R>,
    case: &mut Case,
) -> (Caller<'a, N, M, D, R>, Result<String, Fail>) {
    let Some(pass) = joined(&mut caller, case.service) else {
        return (caller, Err("a connection".into()));
    };
    let is_posted = posts(&mut caller, alloc, &pass, &case.command);
    let mut board = DeviceBoard::new(caller, case.service, clock, &clock.ended);
    let over = works_on(rt, &mut board, &mut case.watch, clock);
    let mut caller = board.into_caller();
    let frames = fetched(&mut caller, &pass);
    (caller, told_of(alloc, &(is_posted, over), &frames))
}

// One caller posts a command and works twice, and a second one fetches the frames; how many entries of the chronicle
// the second one's seat had seen before it took its turn, and after.
fn told_by_second<'a, N: LockName, M: Mechanism, D: Disk, R: Wait>(
    alloc: Global,
    mut one: Caller<'a, N, M, D, R>,
    case: &Case,
) -> (Caller<'a, N, M, D, R>, Result<String, Fail>) {
    let Some((mut two, pass)) = second_beside(&mut one, case.service) else {
        return (one, Err("two callers".into()));
    };
    let works = posts(&mut one, alloc, &pass, &case.command)
        && works(&mut one, case.service)
        && works(&mut one, case.service);
    let before = seen_by(&mut two);
    let frames = fetched(&mut two, &pass);
    let after = seen_by(&mut two);
    one.leave(pass);
    one.merge(two);
    (one, told_of(alloc, &(works, before, after), &frames))
}

fn second_beside<'a, N: LockName, M: Mechanism, D: Disk, R: Wait>(
    one: &mut Caller<'a, N, M, D, R>,
    service: Service,
) -> Option<(Caller<'a, N, M, D, R>, Pass)> {
    let two = second(one)?;
    Some((two, joined(one, service)?))
}

fn told_of<T: Debug>(alloc: Global, first: &T, frames: &[Bytes]) -> Result<String, Fail> {
    let mut told = format!(in alloc; "{first:?}\n")?;
    tell_frames(&mut told, frames)?;
    Ok(told)
}

fn told_of_both(alloc: Global, first: Over, other: Over, case: &Case) -> Result<String, Fail> {
    let mut told = told_of(alloc, &first, case.link.sent())?;
    write!(told, "{other:?}\n")?;
    tell_frames(&mut told, case.other.sent())?;
    Ok(told)
}
