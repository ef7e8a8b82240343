//! Commands that end without a result of their own: the first of the device line whose deadline has come, and the running one that is canceled or due.

ghost use Rattle.std.specs.Prelude.{◌≡◌, ◌≤◌, ◌||◌, ◌&&◌, true, find, IfSome, OnErr, OnOk, option_map};
ghost use Rattle.std.specs.List.{list_any};
ghost use Rattle.xfs_base.specs.declared.moment.TheConstants.{LAST_MOMENT};
ghost use Rattle.xfs_traffic.specs.Changes.{DeviceStops, FirstIsTooLate, WaitEnds};
ghost use Rattle.xfs_model.specs.State.{queue_of};
ghost use Rattle.xfs_queue.specs.Commands.{is_due, is_running, ticket_of, waits_on};
ghost use Rattle.xfs_queue.specs.Queue.{IsPending, IsQueue};
ghost use Rattle.xfs_queue.specs.declared.command.Line.TheVariants as Line;

use crate::devices::Devices;
use crate::job::{Job, Outcome};
use crate::queues::Queues;
use std::alloc::Global;
use xfs_base::{Memory, Moment, Service};
use xfs_card::CardEvent;
use xfs_common::nothing;
use xfs_envelope::Code;
use xfs_keyboard::KeyEvent;
use xfs_queue::{Command, Queue, Stage};

/// The first waiting command of the device line whose deadline has come.
pub fn time_out(alloc: Global, queues: &mut Queues, service: Service, now: Moment)
    requires moment { now.0 ≤ LAST_MOMENT }
    requires some { list_any (λ a. waits_on Line.Device a && is_due now a) (queue_of queues.old service) ≡ true }
    ensures { FirstIsTooLate now service queues.old queues.new }
{
    let Some(ticket) = queues.at(service).expire(now) else {
        unreachable!()
    };
    queues.set_result(service, ticket, Outcome::new(Code::TimeOut, nothing(alloc)));
}

/// The running command, and its device forgets it.
pub fn stop_running(
    alloc: Global,
    devices: &mut Devices,
    queues: &mut Queues,
    service: Service,
    now: Moment,
) -> Result<(), Memory>
    requires { list_any (λ a. is_running a.stage && (a.marked || is_due now a)) (queue_of queues.old service) ≡ true }
    ensures stops { OnOk result (DeviceStops now service devices.old devices.new queues.old queues.new) }
    ensures memory { OnErr result ((devices.new ≡ devices.old) × (queues.new ≡ queues.old)) }
{
    let Some(command) = running_command(queues.at(service)) else {
        unreachable!()
    };
    let ticket = command.ticket();
    let code = if command.marked {
        Code::Canceled
    } else {
        Code::TimeOut
    };
    forget(alloc, devices, service)?;
    queues.set_result(service, ticket, Outcome::new(code, nothing(alloc)));
    Ok(())
}

/// The one that runs.
pub fn running_command(queue: &Queue<Job>) -> Option<&Command<Job>>
    ensures first { option_map (λ a. a.now) result ≡ find (λ a. is_running a.stage) queue.now }
    ensures pending { IfSome result (λ a. IsPending queue.now (ticket_of a.now)) }
    ensures valid { IsQueue queue.now }
{
    queue
        .commands()
        .iter()
        .find(|command| matches!(command.stage, Stage::Running))
}

// The device of a service forgets the command that runs.
fn forget(alloc: Global, devices: &mut Devices, service: Service) -> Result<(), Memory>
    ensures ok { OnOk result (WaitEnds service devices.old devices.new) }
    ensures err { OnErr result (devices.new ≡ devices.old) }
{
    match service {
        Service::Card => {
            xfs_card::step(alloc, &mut devices.slot, CardEvent::Stop)?;
        }
        Service::Keys => {
            xfs_keyboard::step(alloc, &mut devices.keypad, KeyEvent::Stop)?;
        }
        Service::Publisher | Service::Cash => {}
    }
    Ok(())
}
