ghost use Rattle.std.specs.Prelude.{◌≡◌};
ghost use mathlib.Core.List.{IsPrefix};

use crate::backend::{Backend, Refusal};
use crate::hall::{Hall, Signals};
use crate::ringing::Ringing;
use crate::session::{Running, session};
use crate::watches::{CardWatch, KeyWatch};
use crate::worker::{Job, Worker};
use std::sync::atomic::{AtomicBool, Ordering};
use std::sync::{Arc, Wait};
use std::thread::{Scope, Threads};
use xfs_base::{Clock, Memory, Service};
use xfs_mech::{TakerWatch, Watch};
use xfs_server::{Gate, Link};

/// The jobs of the three workers.
#[derive(Drop)]
pub(crate) struct Jobs<B: Drop, P: Watch, Q: Watch> {
    pub cards: Job<B, P>,
    pub keys: Job<B, Q>,
    pub notes: Job<B, TakerWatch>,
}

impl<B: Drop, P: Watch, Q: Watch> Jobs<B, P, Q> {
    /// What the three workers are to work on.
    pub fn new<H: Backend<Tended = B>>(
        backend: &mut H,
        cards: CardWatch<P>,
        keys: KeyWatch<Q>,
    ) -> Result<Jobs<B, P, Q>, Memory>
        ensures { IsPrefix (H.seen backend.old) (H.seen backend.new) }
    {
        let boards = boards_of(backend)?;
        Ok(jobs_at(boards, cards, keys))
    }
}

// What stands behind the workers of the card slot, the key pad and the outlet.
fn boards_of<H: Backend>(backend: &mut H) -> Result<(H::Tended, H::Tended, H::Tended), Memory>
    ensures { IsPrefix (H.seen backend.old) (H.seen backend.new) }
{
    let cards = backend.worker(Service::Card)?;
    let keys = backend.worker(Service::Keys)?;
    let notes = backend.worker(Service::Cash)?;
    Ok((cards, keys, notes))
}

fn jobs_at<B: Drop, P: Watch, Q: Watch>(
    boards: (B, B, B),
    cards: CardWatch<P>,
    keys: KeyWatch<Q>,
) -> Jobs<B, P, Q> {
    Jobs {
        cards: Job {
            board: boards.0,
            watch: cards.0,
        },
        keys: Job {
            board: boards.1,
            watch: keys.0,
        },
        notes: Job {
            board: boards.2,
            watch: TakerWatch,
        },
    }
}

/// The sessions and the workers of a server, and what they share.
pub(crate) struct Staff<H: Backend, P: Watch, Q: Watch> {
    pub backend: H,
    pub sessions: Vec<Running<H::Left>>,
    pub cards: Worker<H::Tended, P>,
    pub keys: Worker<H::Tended, Q>,
    pub notes: Worker<H::Tended, TakerWatch>,
}

impl<H: Backend + Send, P: Watch + Send, Q: Watch + Send> Staff<H, P, Q> {
    /// Starts the workers.
    pub fn open<'s, E, R: Wait + Sync, C: Clock + Sync, G: Sync>(
        scope: &Scope<'s, E>,
        hall: &Hall<'s, R, C, G>,
        backend: H,
        jobs: Jobs<H::Tended, P, Q>,
    ) -> Staff<H, P, Q>
    where
        H: 's,
        P: 's,
        Q: 's,
        ensures { result.backend ≡ backend }
    {
        let signals = hall.signals;
        let Jobs { cards, keys, notes } = jobs;
        Staff {
            backend,
            sessions: Vec::new(hall.alloc),
            cards: Worker::start(scope, hall, cards, &signals.cards),
            keys: Worker::start(scope, hall, keys, &signals.keys),
            notes: Worker::start(scope, hall, notes, &signals.notes),
        }
    }

    /// Takes a connection and begins its session. Where no thread can be made it is served here, to its
    /// end. One for which there is no room is closed.
    pub fn admit<'s, E, R: Sync, C: Clock + Sync, G: Gate + Sync, L: Link + Send + 's>(
        &mut self,
        scope: &Scope<'s, E>,
        hall: &Hall<'s, R, C, G>,
        service: Service,
        link: L,
    ) -> Result<(), Memory>
    where
        H: 's,
        ensures seen { IsPrefix (H.seen self.old.backend) (H.seen self.new.backend) }
    {
        let ended = Arc::new(hall.alloc, AtomicBool::new(false))?;
        let theirs = ended.clone()?;
        self.sessions.reserve(1)?;
        let (client, board) = match self.backend.connect(service) {
            Ok(connection) => connection,
            Err(Refusal::Full) => return Ok(()),
            Err(Refusal::Memory) => return Err(Memory),
        };
        let (clock, gate) = (hall.clock, hall.gate);
        let board = Ringing::new(board, hall.signals.bell_of(service));
        match scope.spawn(move || session::<H, L, C, G>(link, board, clock, gate, client, theirs)) {
            Ok(handle) => self.sessions.push_reserved(Running { handle, ended }),
            Err(refused) => self.backend.take_back((refused.value)()),
        }
        Ok(())
    }

    /// Joins the sessions that have ended.
    pub fn reap<R: Threads>(&mut self, rt: &R)
        ensures seen { IsPrefix (H.seen self.old.backend) (H.seen self.new.backend) }
    {
        join_ended(rt, &mut self.backend, &mut self.sessions);
    }

    /// Makes a round of each worker that has no thread.
    pub fn turn(&mut self, signals: &Signals)
        ensures same { self.new.backend ≡ self.old.backend }
    {
        let cards = self.cards.turn();
        let keys = self.keys.turn();
        let notes = self.notes.turn();
        if !(cards && keys && notes) {
            signals.starved.store(true, Ordering::SeqCst);
        }
    }

    /// Waits until all sessions have ended.
    pub fn drain<R: Threads + Wait, C: Clock, G>(&mut self, hall: &Hall<R, C, G>)
        ensures seen { IsPrefix (H.seen self.old.backend) (H.seen self.new.backend) }
    {
        for _ in hall.rt.forever() {
            self.reap(hall.rt);
            if self.sessions.is_empty() {
                return;
            }
            self.turn(hall.signals);
            hall.clock.pause();
        }
        unreachable!()
    }

    /// Has the workers end, and hands out what has taken all back.
    pub fn dismiss<R: Threads, C, G>(self, hall: &Hall<R, C, G>) -> H
        ensures seen { IsPrefix (H.seen self.backend) (H.seen result) }
    {
        let Staff {
            mut backend,
            sessions: _,
            cards,
            keys,
            notes,
        } = self;
        backend.close();
        hall.signals.ring_all();
        backend.take_back(H::retire(cards.end(hall.rt)));
        backend.take_back(H::retire(keys.end(hall.rt)));
        backend.take_back(H::retire(notes.end(hall.rt)));
        backend
    }
}

// Joins the sessions that have ended, and has the backend take back what they left.
fn join_ended<R: Threads, H: Backend>(rt: &R, backend: &mut H, sessions: &mut Vec<Running<H::Left>>)
    ensures seen { IsPrefix (H.seen backend.old) (H.seen backend.new) }
{
    for _ in 0..sessions.len() {
        let Some(running) = next_ended(sessions) else {
            return;
        };
        backend.take_back(running.handle.join(rt));
    }
}

// The first session that has ended.
fn next_ended<T: Drop>(sessions: &mut Vec<Running<T>>) -> Option<Running<T>> {
    let at = sessions
        .iter()
        .position(|running| running.ended.load(Ordering::SeqCst))?;
    Some(sessions.swap_remove(at))
}
