//! The machine as a chronicle, and the lock that it stands behind.

ghost use Rattle.std.specs.Prelude.{◌≡◌, ◌≤◌, IfOk, IfErr};
ghost use Rattle.xfs_base.specs.Causes.{next_count};
ghost use Rattle.xfs_base.specs.declared.moment.TheConstants.{LAST_MOMENT};
ghost use Rattle.xfs_board.specs.Chronicles.{ComesBack, chronicle, at_opening};
ghost use Rattle.xfs_board.specs.Turns.{TakesStep};
ghost use Rattle.xfs_guard.specs.Keeps.{Proceeds};
ghost use Rattle.xfs_machine.specs.Answers.{joined_as, posted, touched_as, worked};
ghost use Rattle.xfs_machine.specs.MachineView.{guard_of};
ghost use Rattle.xfs_machine.specs.Wanted.{wants};
ghost use Rattle.xfs_model.specs.Events as event;
ghost use Rattle.xfs_model.specs.Told.{AllTell};

use std::alloc::Global;
use std::marker::Model;
use std::snapshot::Snapshot;
use std::sync::Wait;
use xfs_base::{Memory, Moment, Service};
use xfs_disk::Disk;
use xfs_guard::Guard;
use xfs_journal::Rec;
use xfs_machine::{Frames, JoinFault, Machine, Pass, Reading, Tally, Touched, Work};
use xfs_mech::{Mechanism, Touch};
use xfs_turn::{Chronicle, Seat, Turn};

/// An entry of the machine's chronicle. No value of it is made.
pub enum Entry<M: Mechanism, D: Disk> {
    /// The first: the machine's guard as it was when the lock was opened.
    Began(Guard<M, D>),
    /// A record of the journal.
    Written(Rec),
}

/// A machine whose chronicle grows with its journal, beside what it was when the lock was opened: it has gone on
/// from there by its own calls. It lies in a box, since each turn moves what lies behind the lock.
#[derive(Drop)]
pub struct SharedMachine<M: Mechanism, D: Disk> {
    machine: Box<Machine<M, D>>,
    start: Snapshot<Machine<M, D>>,
}

impl<M: Mechanism, D: Disk> Model for SharedMachine<M, D> {
    ghost use Rattle.std.specs.Coded.{codes};
    ghost use Rattle.xfs_board.specs.Chronicles.{HasBase, Shared};
    ghost use Rattle.xfs_guard.specs.Keeps.{Proceeds};
    ghost use Rattle.xfs_traffic.specs.DataCodes.{data_code};
    ghost use Rattle.xfs_machine.specs.MachineView.{guard_of};

    ghost Value = { Shared D };

    ghost coded = { Prim.hlevel (codes, data_code) };

    ghost view = { λ s. record { start = guard_of s.start.value; machine = s.machine.value } };

    ghost invariant = { λ s. Proceeds D.Disk (guard_of s.start.value) (guard_of s.machine.value) × HasBase (guard_of s.start.value) s.machine.value };
}

impl<M: Mechanism, D: Disk> Chronicle for SharedMachine<M, D> {
    ghost use Rattle.std.specs.Prelude.{◌≡◌, length};
    ghost use Rattle.xfs_board.specs.Chronicles.{chronicle};

    type Entry = Entry<M, D>;

    ghost list = { chronicle };

    fn count(&self) -> u64
        ensures { result ≡ length (chronicle {M = M} self.now) }
    {
        1 + self.machine.records().len() as u64
    }
}

// Each call is the machine's, and its chronicle is a front of the one behind it.
impl<M: Mechanism, D: Disk> SharedMachine<M, D> {
    // Where memory ran out the machine comes back.
    fn open(alloc: Global, machine: Machine<M, D>) -> Result<SharedMachine<M, D>, Machine<M, D>>
        ensures ok { IfOk result (λ shared. shared ≡ at_opening machine) }
        ensures memory { IfErr result (λ refused. refused ≡ machine) }
    {
        let start = Snapshot::of(&machine);
        match Box::new(alloc, machine) {
            Ok(machine) => Ok(SharedMachine { machine, start }),
            Err(refused) => Err(refused.value),
        }
    }

    fn close(self) -> Machine<M, D>
        ensures same { result ≡ self.machine }
        ensures proceeds { Proceeds D.Disk self.start (guard_of result) }
    {
        let SharedMachine { machine, start: _ } = self;
        Box::into_inner(machine)
    }

    pub(crate) fn wants(&self, service: Service) -> bool
        ensures { result ≡ wants self.now.machine.state service }
    {
        self.machine.wants(service)
    }

    pub(crate) fn join(&mut self, service: Service) -> Result<Pass, JoinFault>
        ensures { TakesStep M self.old (event.join service) (joined_as result) self.new }
    {
        self.machine.join(service)
    }

    pub(crate) fn post(
        &mut self,
        pass: &Pass,
        reading: Reading<'_>,
        now: Moment,
        tally: &mut Tally,
    ) -> Result<(), Memory>
        requires { now.0 ≤ LAST_MOMENT }
        ensures takes { TakesStep M self.old (event.post pass.now reading.entry now) (posted result) self.new }
        ensures tally { tally.new ≡ record tally.old { posts = next_count tally.old.posts } }
    {
        self.machine.post_read(pass, reading, now, tally)
    }

    pub(crate) fn touch(&mut self, touch: Touch, tally: &mut Tally) -> Result<Touched, Memory>
        ensures takes { TakesStep M self.old (event.touch touch) (touched_as result) self.new }
        ensures tally { tally.new ≡ record tally.old { touches = next_count tally.old.touches } }
    {
        self.machine.touch(touch, tally)
    }

    pub(crate) fn work(
        &mut self,
        service: Service,
        now: Moment,
        tally: &mut Tally,
    ) -> Result<Work, Memory>
        requires { now.0 ≤ LAST_MOMENT }
        ensures takes { TakesStep M self.old (event.work service now) (worked result) self.new }
        ensures tally { tally.new ≡ record tally.old { works = next_count tally.old.works } }
    {
        self.machine.work(service, now, tally)
    }

    pub(crate) fn outbox(&mut self, pass: &Pass, tally: &mut Tally) -> Frames
        ensures takes { TakesStep M self.old (event.outbox pass.now) (event.handed result) self.new }
        ensures told { AllTell self.new.machine.state result }
        ensures tally { tally.new ≡ record tally.old { outboxes = next_count tally.old.outboxes } }
    {
        self.machine.outbox(pass, tally)
    }

    pub(crate) fn leave(&mut self, pass: Pass)
        ensures { TakesStep M self.old (event.leave pass) event.done self.new }
    {
        self.machine.leave(pass)
    }
}

/// The lock over a machine, with its first seat, which has seen the whole chronicle. Where memory
/// ran out the machine comes back.
pub fn open<M: Mechanism, D: Disk>(
    alloc: Global,
    machine: Machine<M, D>,
) -> Result<(Turn<SharedMachine<M, D>>, Seat<SharedMachine<M, D>>), (Machine<M, D>, Memory)>
    ensures seat { IfOk result (λ t. t.1 ≡ record { lock = t.0; seen = chronicle (at_opening machine) }) }
    ensures memory { IfErr result (λ e. e.0 ≡ machine) }
{
    let shared = match SharedMachine::open(alloc, machine) {
        Ok(shared) => shared,
        Err(machine) => return Err((machine, Memory)),
    };
    match Turn::new(alloc, shared) {
        Ok(opened) => Ok(opened),
        Err((shared, memory)) => Err((shared.close(), memory)),
    }
}

/// Takes the last turn, which may wait, and hands out the machine: it went on from the one that was put behind the
/// lock, and what the seat has seen begins its chronicle.
pub fn close<M: Mechanism, D: Disk, R: Wait>(
    rt: &R,
    turn: Turn<SharedMachine<M, D>>,
    seat: Seat<SharedMachine<M, D>>,
) -> Machine<M, D>
    requires lock { seat.lock ≡ turn }
    ensures { ComesBack D.Disk seat.seen result }
{
    turn.close(rt, seat).close()
}
