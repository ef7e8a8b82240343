//! What stands behind the worker of one device.

ghost use Rattle.std.specs.Prelude.{◌≡◌, false};

use crate::caller::{Caller, LockName};
use crate::client::of_work;
use std::marker::Model;
use std::sync::Wait;
use std::sync::atomic::{AtomicBool, Ordering};
use xfs_base::{Clock, Memory, Service};
use xfs_disk::Disk;
use xfs_mech::{Mechanism, Touch};
use xfs_server::{Tended, Work2};

/// What stands behind the worker of a service: each call but `closing` is one turn of the lock, in
/// which the machine is called once, with the clock's moment where it takes one.
#[derive(Drop)]
pub struct DeviceBoard<'a, N: LockName, M: Mechanism, D: Disk, R: Wait, C: Clock> {
    caller: Caller<'a, N, M, D, R>,
    service: Service,
    clock: &'a C,
    // Raised once no further connection is taken and all sessions have ended.
    ended: &'a AtomicBool,
    closing: bool,
}

impl<'a, N: LockName, M: Mechanism, D: Disk, R: Wait, C: Clock> Model
    for DeviceBoard<'a, N, M, D, R, C> {
    ghost use Rattle.xfs_board.specs.Boards.{DeviceView};

    ghost Value = { DeviceView M D C };

    ghost view = { λ b. record { caller = b.caller; service = b.service; clock = b.clock.now; closing = b.closing } };
}

impl<'a, N: LockName, M: Mechanism, D: Disk, R: Wait, C: Clock> DeviceBoard<'a, N, M, D, R, C> {
    /// The object of the worker of this service, which is closing once `ended` is raised.
    pub fn new(
        caller: Caller<'a, N, M, D, R>,
        service: Service,
        clock: &'a C,
        ended: &'a AtomicBool,
    ) -> DeviceBoard<'a, N, M, D, R, C>
        ensures { result ≡ record { caller = caller.entry; service = service; clock = clock.now; closing = false } }
    {
        DeviceBoard {
            caller,
            service,
            clock,
            ended,
            closing: false,
        }
    }

    /// Its caller, once the worker has ended.
    pub fn into_caller(self) -> Caller<'a, N, M, D, R>
        ensures { result ≡ self.entry.caller }
    {
        let DeviceBoard {
            caller,
            service: _,
            clock: _,
            ended: _,
            closing: _,
        } = self;
        caller
    }
}

impl<'a, N: LockName, M: Mechanism, D: Disk, R: Wait, C: Clock> Tended
    for DeviceBoard<'a, N, M, D, R, C> {
    ghost use Rattle.std.specs.Prelude.{◌≡◌};
    ghost use Rattle.xfs_board.specs.Answers.{turned};
    ghost use Rattle.xfs_board.specs.Boards.{StaysOfDevice, device_log};
    ghost use Rattle.xfs_board.specs.Turns.{IsLook, IsTurnBy};
    ghost use Rattle.xfs_board.specs.Touches.{CountsTouch, TakesFault};
    ghost use Rattle.xfs_model.specs.Events as event;
    ghost use Rattle.xfs_server.specs.Tendeds.{CountsFault, after_closing, after_touch, after_wants, after_work};

    ghost log = { device_log };

    fn wants(&mut self) -> bool
        ensures log { device_log self.new ≡ after_wants (device_log self.old) result }
        ensures look { IsLook self.old.caller.seen self.new.caller.seen self.old.service result }
        ensures same { StaysOfDevice self.old self.new }
    {
        self.caller.wants(self.service)
    }

    fn touch(&mut self, touch: Touch) -> Result<(), Memory>
        ensures log { device_log self.new ≡ after_touch (device_log self.old) touch result }
        ensures turn { CountsTouch self.old.caller self.new.caller touch result }
        ensures same { StaysOfDevice self.old self.new }
    {
        match self.caller.touch(touch) {
            Ok(_) => Ok(()),
            Err(memory) => Err(memory),
        }
    }

    fn fault(&mut self) -> Result<(), Memory>
        ensures log { CountsFault (device_log self.old) (device_log self.new) }
        ensures turn { TakesFault self.old.service self.old.caller self.new.caller result }
        ensures same { StaysOfDevice self.old self.new }
    {
        match self.service {
            Service::Card => self.touch(Touch::CardFault),
            Service::Keys => self.touch(Touch::KeyFault),
            Service::Publisher | Service::Cash => Ok(()),
        }
    }

    fn turn(&mut self) -> Result<Work2, Memory>
        ensures log { device_log self.new ≡ after_work (device_log self.old) }
        ensures turn { IsTurnBy (C.tells self.old.clock) self.old.caller.seen self.new.caller.seen (event.work self.old.service) (turned result) }
        ensures same { StaysOfDevice self.old self.new }
    {
        let now = self.clock.now();
        of_work(self.caller.work(self.service, now))
    }

    fn closing(&mut self) -> bool
        ensures log { device_log self.new ≡ after_closing (device_log self.old) result }
        ensures caller { self.new.caller ≡ self.old.caller }
        ensures same { StaysOfDevice self.old self.new }
    {
        if self.ended.load(Ordering::SeqCst) {
            self.closing = true;
        }
        self.closing
    }
}
