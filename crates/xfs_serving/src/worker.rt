ghost use Rattle.xfs_serving.specs.Workers.{TendsOrReturns};

use crate::hall::{Hall, WorkerSignals};
use std::sync::Wait;
use std::sync::atomic::{AtomicBool, Ordering};
use std::thread::{JoinHandle, Scope, Threads};
use xfs_base::Clock;
use xfs_mech::Watch;
use xfs_server::{Over2, Tended, round, tend};

/// What a worker works on.
#[derive(Drop)]
pub(crate) struct Job<B: Drop, W: Drop> {
    pub board: B,
    pub watch: W,
}

/// A worker in a thread of its own, or one that is turned by the loop of the doors, since no thread
/// could be made.
pub(crate) enum Worker<B: Drop, W: Drop> {
    Started(JoinHandle<Job<B, W>>),
    Here(Job<B, W>),
}

impl<B: Tended + Send + Drop, W: Watch + Send> Worker<B, W> {
    /// Starts a worker, whose signals these are.
    pub fn start<'s, E, R: Wait + Sync, C: Clock + Sync, G: Sync>(
        scope: &Scope<'s, E>,
        hall: &Hall<'s, R, C, G>,
        job: Job<B, W>,
        signals: &'s WorkerSignals,
    ) -> Worker<B, W>
    where
        B: 's,
        W: 's,
    {
        let (rt, clock, starved) = (hall.rt, hall.clock, &hall.signals.starved);
        match scope.spawn(move || work(rt, clock, job, starved, signals)) {
            Ok(handle) => Worker::Started(handle),
            Err(refused) => {
                signals.here.store(true, Ordering::SeqCst);
                Worker::Here((refused.value)())
            }
        }
    }

    /// Makes one round, where the loop of the doors is to make it. False where memory ran out.
    pub fn turn(&mut self) -> bool {
        match self {
            Worker::Started(_) => true,
            Worker::Here(job) => {
                !matches!(round(&mut job.board, &mut job.watch), Err(Over2::Memory))
            }
        }
    }

    /// Its board, once it has ended.
    pub fn end<R: Threads>(self, rt: &R) -> B {
        let Job { board, watch: _ } = match self {
            Worker::Started(handle) => handle.join(rt),
            Worker::Here(job) => job,
        };
        board
    }
}

// A worker's thread. Where none could be made the job comes back at once.
fn work<R: Wait, B: Tended + Drop, W: Watch, C: Clock>(
    rt: &R,
    clock: &C,
    mut job: Job<B, W>,
    starved: &AtomicBool,
    signals: &WorkerSignals,
) -> Job<B, W>
    ensures { TendsOrReturns B.log W.coming W.faults job result }
{
    if signals.here.load(Ordering::SeqCst) {
        return job;
    }
    let over = tend(rt, &mut job.board, &mut job.watch, clock, &signals.bell);
    if over == Over2::Memory {
        starved.store(true, Ordering::SeqCst);
    }
    job
}
