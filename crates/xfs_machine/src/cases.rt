//! Which case of the work applies.

ghost use Rattle.std.specs.Prelude.{◌≡◌, ◌≤◌, ◌&&◌, ◌||◌};
ghost use Rattle.std.specs.List.{list_any};
ghost use Rattle.xfs_base.specs.declared.moment.TheConstants.{LAST_MOMENT};
ghost use Rattle.xfs_guard.specs.Upheld.{IsUpheld};
ghost use Rattle.xfs_machine.specs.Chosen.{case_seen, device_case};
ghost use Rattle.xfs_machine.specs.Parts.{at_dispenser};
ghost use Rattle.xfs_model.specs.State.{State};
ghost use Rattle.xfs_model.specs.Work.{case_of, is_ordered};
ghost use Rattle.xfs_queue.specs.Commands.{is_due, is_running};

use crate::dispenser::Dispenser;
use crate::life::is_life_over;
use xfs_base::{Moment, Service};
use xfs_disk::Disk;
use xfs_guard::Guard;
use xfs_mech::Mechanism;
use xfs_queue::{Line, Queue};
use xfs_traffic::{Job, Queues, is_service};

/// The cases of a step of work, in their order.
#[derive(Clone, Copy)]
pub(crate) enum Case {
    /// The open order is acted, or settled.
    Order,
    /// The live nonce ends, whose life is over.
    Expire,
    /// The first command that has its result is answered.
    Answer,
    /// The first command that waits on the nonce line is done.
    Nonce,
    /// The first command of the device line whose deadline has come has its result.
    Overdue,
    /// The running command is canceled, or its deadline has come.
    Stop,
    /// The next part of the running plan is done.
    GoOn,
    /// The first command that waits on the device line is begun.
    Begin,
    Rest,
}

/// The first case that applies.
pub(crate) fn case_of<M: Mechanism, D: Disk>(
    dispenser: &Dispenser<M, D>,
    queues: &Queues,
    service: Service,
    now: Moment,
) -> Case
    requires { now.0 ≤ LAST_MOMENT }
    ensures case { (s : State) → case_seen result ≡ case_of (at_dispenser D.Disk s now dispenser.now queues.now) service }
    ensures upheld { IsUpheld D.Disk dispenser.now.guard }
{
    let is_cash = is_service(Service::Cash, service);
    let queue = queues.at(service);
    let over = is_life_over(dispenser, now);
    if is_cash & is_ordered(&dispenser.guard) {
        return Case::Order;
    }
    if is_cash & over {
        return Case::Expire;
    }
    if queue.commands().is_empty() {
        return Case::Rest;
    }
    if queue.ready().is_some() {
        return Case::Answer;
    }
    let asks = queue.next(Line::Nonce).is_some();
    if is_cash & asks {
        return Case::Nonce;
    }
    device_case(queue, is_cash, now)
}

// Whether an order is open.
fn is_ordered<M: Mechanism, D: Disk>(guard: &Guard<M, D>) -> bool
    ensures open { result ≡ is_ordered guard.now.state.open_order }
    ensures upheld { IsUpheld D.Disk guard.now }
{
    guard.ordering()
}

// The cases of the device line.
fn device_case(queue: &Queue<Job>, is_cash: bool, now: Moment) -> Case
    requires { now.0 ≤ LAST_MOMENT }
    ensures { case_seen result ≡ device_case queue.now is_cash now }
{
    if queue.expire(now).is_some() {
        return Case::Overdue;
    }
    if is_stopped(queue, now) {
        return Case::Stop;
    }
    let runs = queue.running().is_some();
    if is_cash & runs {
        return Case::GoOn;
    }
    let waits = queue.next(Line::Device).is_some();
    if waits & !runs {
        return Case::Begin;
    }
    Case::Rest
}

// Whether the running command is canceled, or its deadline has come.
fn is_stopped(queue: &Queue<Job>, now: Moment) -> bool
    requires { now.0 ≤ LAST_MOMENT }
    ensures { result ≡ list_any (λ a. is_running a.stage && (a.marked || is_due now a)) queue.now }
{
    // The clause of `commands` tells that the ids differ, and that one runs at most.
    let _kept = queue.commands();
    match queue.running() {
        Some(ticket) => queue.is_marked(ticket) | queue.due(ticket, now),
        None => false,
    }
}
