ghost use Rattle.std.specs.Prelude.{◌≡◌, [], Ok, IfOk, IfErr, MatchBool};
ghost use mathlib.Core.List.{IsPrefix};
ghost use Rattle.xfs_turn.specs.Turns.{knows, longer, HasValue};
ghost use Rattle.xfs_turn.specs.declared.rule.Cell.TheVariants.{Home};

use crate::chronicle::Chronicle;
use crate::held::Held;
use crate::rule::{Alike, Both, Cell, Count, Give, Knowledge, Learn, Take, TurnRule};
use crate::seat::Seat;
use crate::sleepers::Sleepers;
use atomic_table::Table;
use std::alloc::Global;
use std::hint::spin_loop;
use std::marker::Model;
use std::snapshot::Snapshot;
use std::sync::Wait;
use std::time::Duration;
use xfs_base::Memory;

// How often a seat looks whether the turn is free before it sleeps.
const LOOKS: u32 = 100;

// The first sleep and the longest, in microseconds. A wake is lost where it comes just before its sleeper sleeps: then
// the first sleeps, each twice the one before, end soon, and the longest costs a seat little that waits for long.
const FIRST_NAP: u64 = 125;

const LONGEST_NAP: u64 = 50_000;

const TURN: usize = 0;

const LENGTH: usize = 1;

type TableSeat<T: Chronicle> = atomic_table::Seat<Cell<T>, Knowledge<T::Entry>>;

/// A lock whose seats know how much of the value's list they have seen, so that what a seat was told
/// stays true in each later turn of it. It takes a `&self` and crosses threads; each thread has a seat
/// of its own. Contracts see which lock it is.
///
/// Nothing is promised of who comes first, of fairness or of how long a turn is waited for.
#[derive(Drop)]
pub struct Turn<T: Chronicle + Drop> {
    table: Table<Cell<T>, Knowledge<T::Entry>, Snapshot<T>, TurnRule<T>, Global>,
    sleepers: Sleepers,
}

impl<T: Chronicle + Drop> Model for Turn<T> {
    ghost use Rattle.std.specs.Prelude.{◌≡◌};
    ghost use Rattle.atomic_table.specs.Seated.{TableId};

    ghost Value = { TableId };

    ghost view = { λ t. t.table.shared.table_id };

    ghost invariant = { λ t. (t.table.shared.table_id.words ≡ 2) × (t.table.shared.table_id.slots ≡ 1) };
}

impl<T: Chronicle + Drop> Turn<T> {
    /// A lock with its first seat, which has seen the whole list. Where memory ran out the value comes back.
    pub fn new(alloc: Global, value: T) -> Result<(Turn<T>, Seat<T>), (T, Memory)>
        ensures seat { IfOk result (λ t. t.1 ≡ record { lock = t.0; seen = T.list value }) }
        ensures memory { IfErr result (λ e. e.0 ≡ value) }
    {
        let count = value.count();
        let start = Snapshot::of(&value);
        let mut slots = Vec::new(alloc);
        if let Err(refused) = slots.push(Cell::Home(value)) {
            return Err((at_home(refused.value), Memory));
        }
        match Table::new(alloc, &[0, count], slots, &start) {
            Ok((table, seat)) => {
                let sleepers = Sleepers::new();
                Ok((Turn { table, sleepers }, Seat { seat, count }))
            }
            Err(refused) => {
                let mut slots = refused.slots;
                match slots.pop() {
                    Some(cell) => Err((at_home(cell), Memory)),
                    None => unreachable!(),
                }
            }
        }
    }

    /// Waits for the turn and takes it, with the value. What the seat had seen begins the value's list.
    pub fn enter<R: Wait>(&self, rt: &R, seat: Seat<T>) -> Held<T>
        requires lock { seat.lock ≡ self.now }
        ensures lock { result.lock ≡ seat.lock }
        ensures found { result.found ≡ T.list result.value }
        ensures seen { IsPrefix seat.seen (T.list result.value) }
    {
        let Seat { mut seat, count: _ } = seat;
        let mut nap = FIRST_NAP;
        for _ in rt.forever() {
            if self.take(&mut seat) {
                return self.carry_out(seat);
            }
            if !self.looks_free() {
                self.sleep(rt, nap);
                nap = nap.saturating_mul(2).min(LONGEST_NAP);
            }
        }
        unreachable!()
    }

    /// Gives the value and the turn back. The seat has seen the value's whole list.
    pub fn leave(&self, held: Held<T>) -> Seat<T>
        requires lock { held.lock ≡ self.now }
        requires grown { IsPrefix held.found (T.list held.value) }
        ensures seat { result ≡ record { lock = held.lock; seen = T.list held.value } }
    {
        let Held { value, mut seat } = held;
        let shared = &self.table.shared;
        let count = value.count();
        let _out = shared.exchange(&mut seat, 0, Cell::Home(value));
        shared.store::<Count<T>>(&mut seat, LENGTH, count);
        shared.store::<Give<T>>(&mut seat, TURN, 0);
        self.wake();
        Seat { seat, count }
    }

    /// A second seat, which has seen as much.
    pub fn split(&self, seat: &mut Seat<T>) -> Result<Seat<T>, Memory>
        requires lock { seat.old.lock ≡ self.now }
        ensures same { seat.new ≡ seat.old }
        ensures second { result ≡ Ok seat.old }
    {
        let second = self.table.shared.split_seat::<Alike>(&mut seat.seat);
        let count = seat.count;
        Ok(Seat {
            seat: second,
            count,
        })
    }

    /// Joins a seat into another, which has then seen what either had.
    pub fn join(&self, into: &mut Seat<T>, other: Seat<T>)
        requires lock { into.old.lock ≡ self.now }
        requires other_lock { other.lock ≡ self.now }
        ensures seat { into.new ≡ record into.old { seen = longer into.old.seen other.seen } }
        ensures first { IsPrefix into.old.seen into.new.seen }
        ensures second { IsPrefix other.seen into.new.seen }
    {
        let Seat { seat: other, count } = other;
        self.table.shared.join_seat::<Both>(&mut into.seat, other);
        self.table.shared.load::<Learn<T>>(&mut into.seat, TURN);
        if into.count < count {
            into.count = count;
        }
    }

    /// Takes the last turn, which may wait, and hands out the value. What the seat had seen begins its list.
    pub fn close<R: Wait>(self, rt: &R, seat: Seat<T>) -> T
        requires lock { seat.lock ≡ self }
        ensures seen { IsPrefix seat.seen (T.list result) }
    {
        let Held { value, seat: _ } = self.enter(rt, seat);
        value
    }

    // Takes the turn, if it is free.
    fn take(&self, seat: &mut TableSeat<T>) -> bool
        requires lock { seat.old.table_id ≡ self.now }
        requires idle { seat.old.me ≡ (knows seat.old.me.0.seen, []) }
        ensures lock { seat.new.table_id ≡ seat.old.table_id }
        ensures taken { MatchBool result ((x : T) × HasValue T.list x seat.new.me × IsPrefix seat.old.me.0.seen (T.list x)) (seat.new.me ≡ seat.old.me) }
    {
        let shared = &self.table.shared;
        shared.peek(TURN) == 0 && shared.compare_exchange::<Take<T>>(seat, TURN, 0, 1) == 0
    }

    // Takes the value out of the slot.
    fn carry_out(&self, mut seat: TableSeat<T>) -> Held<T>
        requires lock { seat.table_id ≡ self.now }
        requires taken { (x : T) × HasValue T.list x seat.me }
        ensures held { result ≡ record { lock = seat.table_id; found = seat.me.0.seen; value = result.value } }
        ensures list { T.list result.value ≡ seat.me.0.seen }
    {
        match self.table.shared.exchange(&mut seat, 0, Cell::Out) {
            Cell::Home(value) => Held { value, seat },
            Cell::Out => unreachable!(),
        }
    }

    // Looks for a while whether the turn is free, as long as no seat sleeps.
    fn looks_free(&self) -> bool {
        for _ in 0..LOOKS {
            if self.sleepers.is_any() {
                return false;
            }
            if self.table.shared.peek(TURN) == 0 {
                return true;
            }
            spin_loop();
        }
        false
    }

    // Sleeps while the turn is taken, until a wake or the nap's end, in microseconds.
    fn sleep<R: Wait>(&self, rt: &R, nap: u64) {
        self.sleepers.enter();
        self.table
            .shared
            .park_timeout(rt, TURN, 1, Duration::from_micros(nap));
        self.sleepers.leave();
    }

    // Wakes a seat that sleeps. Where none does, it makes no system call.
    fn wake(&self) {
        if self.sleepers.wants_wake() {
            self.table.shared.wake_one(TURN);
        }
    }
}

// The value at home.
fn at_home<T>(cell: Cell<T>) -> T
    requires { (x : T) × (cell ≡ Home x) }
    ensures { cell ≡ Home result }
{
    match cell {
        Cell::Home(value) => value,
        Cell::Out => unreachable!(),
    }
}
