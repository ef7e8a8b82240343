//! What stands behind a server of the machine.

ghost use Rattle.std.specs.Prelude.{◌≡◌};
ghost use mathlib.Core.List.{IsPrefix};
ghost use Rattle.xfs_machine.specs.declared.pass.JoinFault.TheVariants as JoinFault;
ghost use Rattle.xfs_serving.specs.declared.backend.Refusal.TheVariants as Refusal;

use crate::caller::{Caller, LockName};
use crate::client::ClientBoard;
use crate::device::DeviceBoard;
use crate::shared::{Entry, SharedMachine};
use std::alloc::Global;
use std::sync::Wait;
use std::sync::atomic::{AtomicBool, Ordering};
use xfs_base::{ClientId, Clock, Memory, Service};
use xfs_disk::Disk;
use xfs_machine::JoinFault;
use xfs_mech::Mechanism;
use xfs_serving::{Backend, Refusal};
use xfs_turn::Seat;

/// The caller of the loop at the doors, from which those of the sessions and the workers are split.
#[derive(Drop)]
pub(crate) struct MachineBackend<'a, N: LockName, M: Mechanism, D: Disk, R: Wait, C: Clock> {
    pub alloc: Global,
    pub caller: Caller<'a, N, M, D, R>,
    pub clock: &'a C,
    // Raised once no further connection is taken and all sessions have ended.
    pub ended: &'a AtomicBool,
}

impl<
    'a,
    N: LockName + Send,
    M: Mechanism + Send,
    D: Disk + Send,
    R: Wait + Sync,
    C: Clock + Sync,
> Backend for MachineBackend<'a, N, M, D, R, C> {
    ghost use Rattle.std.specs.Prelude.{◌≡◌, Ok, IfOk};
    ghost use mathlib.Core.List.{IsPrefix};
    ghost use Rattle.xfs_board.specs.Boards.{fresh_device};
    ghost use Rattle.xfs_board.specs.Turns.{IsTurn};
    ghost use Rattle.xfs_machine.specs.Answers.{joined_as};
    ghost use Rattle.xfs_model.specs.Events as event;

    type Entry = Entry<M, D>;

    type Board = ClientBoard<'a, N, M, D, R, C>;

    type Tended = DeviceBoard<'a, N, M, D, R, C>;

    type Left = Caller<'a, N, M, D, R>;

    ghost seen = { λ b. b.caller.seen };

    ghost seen_left = { λ c. c.seen };

    ghost leaves = { λ b c. IsTurn b.caller.seen c.seen (event.leave b.pass) event.done };

    ghost retires = { λ b c. c ≡ b.caller };

    fn connect(
        &mut self,
        service: Service,
    ) -> Result<(ClientId, ClientBoard<'a, N, M, D, R, C>), Refusal>
        ensures seen { IsPrefix self.old.caller.seen self.new.caller.seen }
        ensures turn { IfOk result (λ c. IsTurn self.old.caller.seen c.1.caller.seen (event.join service) (joined_as (Ok c.1.pass))) }
        ensures client { IfOk result (λ c. c.0 ≡ c.1.pass.client) }
        ensures clock { IfOk result (λ c. c.1.clock ≡ self.old.clock.now) }
        ensures same { self.new.clock ≡ self.old.clock }
    {
        let Ok(mut caller) = self.caller.split() else {
            return Err(Refusal::Memory);
        };
        match caller.join(service) {
            Ok(pass) => {
                let client = pass.client();
                Ok((
                    client,
                    ClientBoard::new(self.alloc, caller, pass, self.clock),
                ))
            }
            Err(fault) => {
                self.caller.merge(caller);
                Err(refusal_of(fault))
            }
        }
    }

    fn worker(&mut self, service: Service) -> Result<DeviceBoard<'a, N, M, D, R, C>, Memory>
        ensures seen { IsPrefix self.old.caller.seen self.new.caller.seen }
        ensures board { IfOk result (λ b. b ≡ fresh_device self.old.caller.seen service self.old.clock.now) }
        ensures same { self.new.clock ≡ self.old.clock }
    {
        let caller = self.caller.split()?;
        Ok(DeviceBoard::new(caller, service, self.clock, self.ended))
    }

    fn close(&mut self) {
        self.ended.store(true, Ordering::SeqCst);
    }

    fn leave(board: ClientBoard<'a, N, M, D, R, C>) -> Caller<'a, N, M, D, R> {
        board.leave()
    }

    fn retire(tended: DeviceBoard<'a, N, M, D, R, C>) -> Caller<'a, N, M, D, R> {
        tended.into_caller()
    }

    fn take_back(&mut self, left: Caller<'a, N, M, D, R>) {
        self.caller.merge(left);
    }
}

impl<'a, N: LockName, M: Mechanism, D: Disk, R: Wait, C: Clock> MachineBackend<'a, N, M, D, R, C> {
    /// The seat of its caller.
    pub fn into_seat(self) -> Seat<SharedMachine<M, D>>
        ensures lock { result.lock ≡ N.lock }
        ensures seen { result.seen ≡ self.entry.caller.seen }
    {
        let MachineBackend {
            alloc: _,
            caller,
            clock: _,
            ended: _,
        } = self;
        caller.into_seat()
    }
}

fn refusal_of(fault: JoinFault) -> Refusal
    ensures full { fault ≡ JoinFault.Full → result ≡ Refusal.Full }
    ensures memory { fault ≡ JoinFault.Memory → result ≡ Refusal.Memory }
{
    match fault {
        JoinFault::Full => Refusal::Full,
        JoinFault::Memory => Refusal::Memory,
    }
}
