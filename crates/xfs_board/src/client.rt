//! The board of one connection's session.

ghost use Rattle.std.specs.Prelude.{◌≡◌};
ghost use Rattle.xfs_board.specs.Answers.{turned};
ghost use Rattle.xfs_board.specs.Turns.{IsTurn};
ghost use Rattle.xfs_machine.specs.Answers.{worked};
ghost use Rattle.xfs_model.specs.Events as event;

use crate::caller::{Caller, LockName};
use std::alloc::Global;
use std::marker::Model;
use std::sync::Wait;
use xfs_base::{Bytes, Clock, Memory};
use xfs_disk::Disk;
use xfs_machine::{Pass, Reading, Work};
use xfs_mech::Mechanism;
use xfs_server::{Board, Work2};

/// What stands behind one connection: each call is one turn of the lock, in which the machine is
/// called once with the connection's pass and the clock's moment.
#[derive(Drop)]
pub struct ClientBoard<'a, N: LockName, M: Mechanism, D: Disk, R: Wait, C: Clock> {
    alloc: Global,
    caller: Caller<'a, N, M, D, R>,
    pass: Pass,
    clock: &'a C,
}

impl<'a, N: LockName, M: Mechanism, D: Disk, R: Wait, C: Clock> Model
    for ClientBoard<'a, N, M, D, R, C> {
    ghost use Rattle.xfs_board.specs.Boards.{ClientView};

    ghost Value = { ClientView M D C };

    ghost view = { λ b. record { caller = b.caller; pass = b.pass; clock = b.clock.now } };
}

impl<'a, N: LockName, M: Mechanism, D: Disk, R: Wait, C: Clock> ClientBoard<'a, N, M, D, R, C> {
    /// The board of the connection with this pass.
    pub fn new(
        alloc: Global,
        caller: Caller<'a, N, M, D, R>,
        pass: Pass,
        clock: &'a C,
    ) -> ClientBoard<'a, N, M, D, R, C>
        ensures { result ≡ record { caller = caller.entry; pass = pass; clock = clock.now } }
    {
        ClientBoard {
            alloc,
            caller,
            pass,
            clock,
        }
    }

    /// The connection leaves the machine, with its commands, and its caller comes back.
    pub fn leave(self) -> Caller<'a, N, M, D, R>
        ensures turn { IsTurn self.entry.caller.seen result.seen (event.leave self.entry.pass) event.done }
        ensures tally { result.tally ≡ self.entry.caller.tally }
    {
        let ClientBoard {
            alloc: _,
            mut caller,
            pass,
            clock: _,
        } = self;
        caller.leave(pass);
        caller
    }
}

impl<'a, N: LockName, M: Mechanism, D: Disk, R: Wait, C: Clock> Board
    for ClientBoard<'a, N, M, D, R, C> {
    ghost use Rattle.std.specs.Prelude.{◌≡◌};
    ghost use Rattle.xfs_board.specs.Boards.{StaysOfClient, client_log};
    ghost use Rattle.xfs_board.specs.Turns.{HandsTold, IsTurnBy};
    ghost use Rattle.xfs_model.specs.Events as event;
    ghost use Rattle.xfs_machine.specs.Answers.{posted};
    ghost use Rattle.xfs_board.specs.Answers.{turned};
    ghost use Rattle.xfs_server.specs.Boards.{after_fetch, after_post, after_turn};

    ghost log = { client_log };

    fn post(&mut self, text: &[u8]) -> Result<(), Memory>
        ensures log { client_log self.new ≡ after_post (client_log self.old) text.now result }
        ensures turn { IsTurnBy (C.tells self.old.clock) self.old.caller.seen self.new.caller.seen (event.post self.old.pass text.now) (posted result) }
        ensures same { StaysOfClient self.old self.new }
    {
        let reading = Reading::of(self.alloc, text);
        let now = self.clock.now();
        self.caller.post(&self.pass, reading, now)
    }

    fn turn(&mut self) -> Result<Work2, Memory>
        ensures log { client_log self.new ≡ after_turn (client_log self.old) }
        ensures turn { IsTurnBy (C.tells self.old.clock) self.old.caller.seen self.new.caller.seen (event.work self.old.pass.service) (turned result) }
        ensures same { StaysOfClient self.old self.new }
    {
        let now = self.clock.now();
        let service = self.pass.service();
        of_work(self.caller.work(service, now))
    }

    fn frames(&mut self) -> Vec<Bytes>
        ensures log { client_log self.new ≡ after_fetch (client_log self.old) result.items }
        ensures turn { HandsTold self.old.caller.seen self.new.caller.seen (event.outbox self.old.pass) (event.handed result.items) result.items }
        ensures same { StaysOfClient self.old self.new }
    {
        self.caller.outbox(&self.pass).into_list()
    }
}

// What a step of the machine's work is for a server.
pub(crate) fn of_work(work: Result<Work, Memory>) -> Result<Work2, Memory>
    ensures { turned result ≡ worked work }
{
    match work {
        Ok(Work::Did) => Ok(Work2::Did),
        Ok(Work::Idle) => Ok(Work2::Idle),
        Err(memory) => Err(memory),
    }
}
