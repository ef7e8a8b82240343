//! The calls of callers, sessions and workers at a lock.

use std::alloc::Global;
use std::sync::Wait;
use xfs_base::{Bytes, ClientId, Clock, Moment, Service};
use xfs_board::{Caller, LockName};
use xfs_disk::Disk;
use xfs_machine::{Pass, Reading, Work};
use xfs_mech::{Mechanism, SimWatch};
use xfs_server::{Bell, Board, Link, OpenGate, Over, Over2, Tended, serve_client, tend};

/// A connection to a service. None where there is no room for it.
pub fn joined<N: LockName, M: Mechanism, D: Disk, R: Wait>(
    caller: &mut Caller<'_, N, M, D, R>,
    service: Service,
) -> Option<Pass> {
    caller.join(service).ok()
}

/// A second caller. None where there is no memory for it.
pub fn second<'a, N: LockName, M: Mechanism, D: Disk, R: Wait>(
    caller: &mut Caller<'a, N, M, D, R>,
) -> Option<Caller<'a, N, M, D, R>> {
    caller.split().ok()
}

/// Whether a command is posted at the first moment.
pub fn posts<N: LockName, M: Mechanism, D: Disk, R: Wait>(
    caller: &mut Caller<'_, N, M, D, R>,
    alloc: Global,
    pass: &Pass,
    command: &Bytes,
) -> bool {
    let reading = Reading::of(alloc, command.list());
    caller.post(pass, reading, Moment(0)).is_ok()
}

/// Whether a service has something to do, and does it.
pub fn works<N: LockName, M: Mechanism, D: Disk, R: Wait>(
    caller: &mut Caller<'_, N, M, D, R>,
    service: Service,
) -> bool {
    matches!(caller.work(service, Moment(0)), Ok(Work::Did))
}

/// The frames of a connection.
pub fn fetched<N: LockName, M: Mechanism, D: Disk, R: Wait>(
    caller: &mut Caller<'_, N, M, D, R>,
    pass: &Pass,
) -> Vec<Bytes> {
    caller.outbox(pass).into_list()
}

/// How many entries of the chronicle a caller has seen. None where there is no memory to tell.
pub fn seen_by<N: LockName, M: Mechanism, D: Disk, R: Wait>(
    caller: &mut Caller<'_, N, M, D, R>,
) -> Option<u64> {
    match second(caller) {
        Some(second) => Some(second.into_seat().seen()),
        None => None,
    }
}

/// How a session over a link ends, with no gate.
pub fn session<L: Link, B: Board, C: Clock>(
    link: &mut L,
    board: &mut B,
    clock: &C,
    client: ClientId,
) -> Over {
    serve_client(link, board, &OpenGate, clock, client)
}

/// How a worker ends.
pub fn works_on<R: Wait, B: Tended, C: Clock>(
    rt: &R,
    board: &mut B,
    watch: &mut SimWatch,
    clock: &C,
) -> Over2 {
    tend(rt, board, watch, clock, &Bell::new())
}
