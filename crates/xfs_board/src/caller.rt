//! A caller at the lock: each call is one turn and one call of the machine.

ghost use Rattle.std.specs.Prelude.{◌≡◌, ◌≤◌, ◌∷◌, Ok, Some, IsSome};
ghost use mathlib.Core.List.{IsPrefix};
ghost use Rattle.xfs_base.specs.Causes.{next_count};
ghost use Rattle.xfs_base.specs.declared.moment.TheConstants.{LAST_MOMENT};
ghost use Rattle.xfs_board.specs.Callers.{fresh};
ghost use Rattle.xfs_board.specs.Turns.{HandsTold, IsLook, IsTurn};
ghost use Rattle.xfs_machine.specs.Answers.{joined_as, posted, touched_as, worked};
ghost use Rattle.xfs_model.specs.Events as event;
ghost use Rattle.xfs_turn.specs.Turns.{longer};

use crate::shared::SharedMachine;
use std::marker::{Brand, Model, PhantomData};
use std::sync::Wait;
use xfs_base::{Memory, Moment, Service};
use xfs_disk::Disk;
use xfs_machine::{Frames, JoinFault, Pass, Reading, Tally, Touched, Work};
use xfs_mech::{Mechanism, Touch};
use xfs_turn::{Chronicle, Seat, Turn};

/// Which lock it is, so that a caller's type tells it: what a session or a worker gives back, whose
/// calls say nothing of locks, is still of the lock that it was made for.
pub trait LockName {
    ghost use Rattle.atomic_table.specs.Seated.{TableId};

    ghost lock: { TableId };
}

impl LockName for Brand {
    ghost use Rattle.std.specs.Prelude.{[]};

    ghost lock = { record { words = 0; slots = 0; views_name = 0; atom = 0; block = 0; offset = 0; slot_names = [] } };
}

/// A seat at the lock of a machine, with the tally of the calls that were made from it. Each of its
/// calls waits for the turn, makes one call of the machine and gives the turn back.
#[derive(Drop)]
pub struct Caller<'a, N: LockName, M: Mechanism, D: Disk, R: Wait> {
    rt: &'a R,
    turn: &'a Turn<SharedMachine<M, D>>,
    // None during a call alone.
    seat: Option<Seat<SharedMachine<M, D>>>,
    tally: Tally,
    of: PhantomData<N>,
}

impl<'a, N: LockName, M: Mechanism, D: Disk, R: Wait> Model for Caller<'a, N, M, D, R> {
    ghost use Rattle.std.specs.Prelude.{◌≡◌, MatchOption};
    ghost use Rattle.xfs_board.specs.Callers.{CallerView, seen_by};

    ghost Value = { CallerView M D };

    ghost view = { λ c. record { seen = seen_by c.seat; tally = c.tally } };

    ghost invariant = { λ c. (c.turn.now ≡ N.lock) × MatchOption c.seat ⊥ (λ s. s.lock ≡ N.lock) };
}

impl<'a, N: LockName, M: Mechanism, D: Disk, R: Wait> Caller<'a, N, M, D, R> {
    /// A caller from a seat at the lock. It has made no calls.
    pub fn new(
        rt: &'a R,
        turn: &'a Turn<SharedMachine<M, D>>,
        seat: Seat<SharedMachine<M, D>>,
    ) -> Caller<'a, N, M, D, R>
        requires name { turn.now ≡ N.lock }
        requires lock { seat.lock ≡ N.lock }
        ensures { result ≡ fresh seat.seen }
    {
        Caller {
            rt,
            turn,
            seat: Some(seat),
            tally: Tally::new(),
            of: PhantomData,
        }
    }

    /// Its seat, which is of the lock that its type names.
    pub fn into_seat(self) -> Seat<SharedMachine<M, D>>
        ensures { result ≡ record { lock = N.lock; seen = self.entry.seen } }
    {
        let Caller {
            rt: _,
            turn: _,
            seat,
            tally: _,
            of: _,
        } = self;
        match seat {
            Some(seat) => seat,
            None => unreachable!(),
        }
    }

    /// A second caller, whose seat has seen as much. It has made no calls.
    pub fn split(&mut self) -> Result<Caller<'a, N, M, D, R>, Memory>
        ensures same { self.new ≡ self.old }
        ensures second { result ≡ Ok (fresh self.old.seen) }
    {
        let mut seat = take(&mut self.seat);
        let second = self.turn.split(&mut seat);
        self.seat = Some(seat);
        Ok(Caller::new(self.rt, self.turn, second?))
    }

    /// Joins the seat of another caller into its own, which has then seen what either had.
    pub fn merge(&mut self, other: Caller<'a, N, M, D, R>)
        ensures seen { self.new.seen ≡ longer self.old.seen other.entry.seen }
        ensures first { IsPrefix self.old.seen self.new.seen }
        ensures second { IsPrefix other.entry.seen self.new.seen }
        ensures tally { self.new.tally ≡ self.old.tally }
    {
        let mut seat = take(&mut self.seat);
        self.turn.join(&mut seat, other.into_seat());
        self.seat = Some(seat);
    }

    /// Takes a connection.
    pub fn join(&mut self, service: Service) -> Result<Pass, JoinFault>
        ensures turn { IsTurn self.old.seen self.new.seen (event.join service) (joined_as result) }
        ensures tally { self.new.tally ≡ self.old.tally }
    {
        let mut held = self.turn.enter(self.rt, take(&mut self.seat));
        let result = held.value().join(service);
        self.seat = Some(self.turn.leave(held));
        result
    }

    /// Takes a text of a client, which was read before the turn: others need not wait while it is read.
    pub fn post(&mut self, pass: &Pass, reading: Reading<'_>, now: Moment) -> Result<(), Memory>
        requires { now.0 ≤ LAST_MOMENT }
        ensures turn { IsTurn self.old.seen self.new.seen (event.post pass.now reading.entry now) (posted result) }
        ensures tally { self.new.tally ≡ record self.old.tally { posts = next_count self.old.tally.posts } }
    {
        let mut held = self.turn.enter(self.rt, take(&mut self.seat));
        let result = held.value().post(pass, reading, now, &mut self.tally);
        self.seat = Some(self.turn.leave(held));
        result
    }

    /// Takes an event of the world.
    pub fn touch(&mut self, touch: Touch) -> Result<Touched, Memory>
        ensures turn { IsTurn self.old.seen self.new.seen (event.touch touch) (touched_as result) }
        ensures tally { self.new.tally ≡ record self.old.tally { touches = next_count self.old.tally.touches } }
    {
        let mut held = self.turn.enter(self.rt, take(&mut self.seat));
        let result = held.value().touch(touch, &mut self.tally);
        self.seat = Some(self.turn.leave(held));
        result
    }

    /// Does one step of a service's work.
    pub fn work(&mut self, service: Service, now: Moment) -> Result<Work, Memory>
        requires { now.0 ≤ LAST_MOMENT }
        ensures turn { IsTurn self.old.seen self.new.seen (event.work service now) (worked result) }
        ensures tally { self.new.tally ≡ record self.old.tally { works = next_count self.old.tally.works } }
    {
        let mut held = self.turn.enter(self.rt, take(&mut self.seat));
        let result = held.value().work(service, now, &mut self.tally);
        self.seat = Some(self.turn.leave(held));
        result
    }

    /// Hands over the frames that wait for a client: what they tell of the journal stands in what the
    /// seat has seen.
    pub fn outbox(&mut self, pass: &Pass) -> Frames
        ensures turn { HandsTold self.old.seen self.new.seen (event.outbox pass.now) (event.handed result) result }
        ensures tally { self.new.tally ≡ record self.old.tally { outboxes = next_count self.old.tally.outboxes } }
    {
        let mut held = self.turn.enter(self.rt, take(&mut self.seat));
        let frames = held.value().outbox(pass, &mut self.tally);
        self.seat = Some(self.turn.leave(held));
        frames
    }

    /// Drops a connection with its commands.
    pub fn leave(&mut self, pass: Pass)
        ensures turn { IsTurn self.old.seen self.new.seen (event.leave pass) event.done }
        ensures tally { self.new.tally ≡ self.old.tally }
    {
        let mut held = self.turn.enter(self.rt, take(&mut self.seat));
        held.value().leave(pass);
        self.seat = Some(self.turn.leave(held));
    }

    /// Whether a touch of the world is waited for at a service.
    pub fn wants(&mut self, service: Service) -> bool
        ensures look { IsLook self.old.seen self.new.seen service result }
        ensures tally { self.new.tally ≡ self.old.tally }
    {
        let mut held = self.turn.enter(self.rt, take(&mut self.seat));
        let wanted = held.value().wants(service);
        self.seat = Some(self.turn.leave(held));
        wanted
    }
}

// The seat, which is there between two calls.
fn take<T: Chronicle>(seat: &mut Option<Seat<T>>) -> Seat<T>
    requires { IsSome seat.old }
    ensures { seat.old ≡ Some result }
{
    match seat.take() {
        Some(seat) => seat,
        None => unreachable!(),
    }
}
