//! The first command that waits on the device line is begun.

ghost use Rattle.std.specs.Prelude.{◌≡◌, None, false, IfSome, OnErr, OnOk, find, option_map, All};
ghost use Rattle.xfs_card.specs.declared.ask.CardAsk.TheVariants as CardAsk;
ghost use Rattle.xfs_dispenser.specs.Answers.{start_of, start_payload};
ghost use Rattle.xfs_envelope.specs.Messages.{IsPayload};
ghost use Rattle.xfs_guard.specs.Keeps.{Keeps, NoEntry, Proceeds};
ghost use Rattle.xfs_guard.specs.Upheld.{IsUpheld};
ghost use Rattle.xfs_guard.specs.declared.open.Open.TheVariants.{No};
ghost use Rattle.xfs_machine.specs.Changes.{CardBegins, EntryBegins, FirstBegins};
ghost use Rattle.xfs_traffic.specs.Jobs.{changed_at};
ghost use Rattle.xfs_machine.specs.Parts.{HasDeviceAsk, MayStart};
ghost use Rattle.xfs_model.specs.Cases.{with_start};
ghost use Rattle.xfs_model.specs.Results.{running, with_plan};
ghost use Rattle.xfs_model.specs.Sound.{IsFitting};
ghost use Rattle.xfs_base.specs.declared.moment.Service.TheVariants as Service;
ghost use Rattle.xfs_model.specs.State.{card, queue_of, with_queue};
ghost use Rattle.xfs_queue.specs.Commands.{is_running, ticket_of, waits_on};
ghost use Rattle.xfs_queue.specs.Queue.{IsWaiting};
ghost use Rattle.xfs_queue.specs.declared.command.Line.TheVariants as Line;

use crate::dispenser::Dispenser;
use std::alloc::Global;
use xfs_base::{Memory, Service};
use xfs_card::{CardAsk, CardEffect, CardEvent, CardState};
use xfs_common::nothing;
use xfs_disk::Disk;
use xfs_dispenser::{Begun, begin};
use xfs_envelope::Code;
use xfs_keyboard::{EntryAsk, KeyEvent, KeyState};
use xfs_mech::Mechanism;
use xfs_queue::{Command, Line, Queue, Stage, Ticket};
use xfs_traffic::{Ask, Devices, Job, Outcome, Queues, RunningPlan, Traffic, insert_card};

/// Begins it, by what it asks. None runs.
pub(crate) fn begin_first<M: Mechanism, D: Disk>(
    alloc: Global,
    dispenser: &mut Dispenser<M, D>,
    devices: &mut Devices,
    traffic: &mut Traffic,
    service: Service,
) -> Result<(), Memory>
    requires none { service ≡ Service.Cash → dispenser.old.guard.state.open_order ≡ No }
    requires asks { HasDeviceAsk (queue_of traffic.old.queues service) }
    requires fitting { All (IsFitting service) (queue_of traffic.old.queues service) }
    requires idle { find (λ a. is_running a.stage) (queue_of traffic.old.queues service) ≡ None }
    ensures begins { OnOk result (FirstBegins D.Disk service dispenser.old dispenser.new devices.old devices.new traffic.old traffic.new) }
    ensures memory { OnErr result ((dispenser.new ≡ dispenser.old) × (devices.new ≡ devices.old) × (traffic.new ≡ traffic.old)) }
    ensures proceeds { Proceeds D.Disk dispenser.old.guard dispenser.new.guard }
    ensures keeps { IsUpheld D.Disk dispenser.old.guard → Keeps D.Disk NoEntry dispenser.old.guard dispenser.new.guard }
{
    let Some(command) = first_waiting(traffic.queues.at(service)) else {
        unreachable!()
    };
    let ticket = command.ticket();
    match command.job.ask() {
        Ask::Cash(ask) => {
            let room = RunningPlan::room(alloc)?;
            let begun = begin(alloc, &mut dispenser.guard, &mut dispenser.exchange, ask)?;
            start_cash(&mut traffic.queues, service, ticket, begun, room);
            Ok(())
        }
        Ask::Card(ask) => {
            let ask = *ask;
            begin_card(alloc, &mut devices.slot, traffic, service, ticket, ask)
        }
        Ask::Entry(ask) => {
            let ask = ask.copy();
            begin_entry(
                alloc,
                &mut devices.keypad,
                &mut traffic.queues,
                service,
                ticket,
                ask,
            )
        }
        Ask::Bad => {
            traffic.queues.set_result(
                service,
                ticket,
                Outcome::new(Code::InvalidData, nothing(alloc)),
            );
            Ok(())
        }
        Ask::Issue | Ask::Clear => unreachable!(),
    }
}

fn first_waiting(queue: &Queue<Job>) -> Option<&Command<Job>>
    ensures first { option_map (λ a. a.now) result ≡ find (waits_on Line.Device) queue.now }
    ensures waiting { IfSome result (λ a. IsWaiting queue.now (ticket_of a.now)) }
{
    queue.commands().iter().find(|command| {
        matches!(command.stage, Stage::Waiting) && matches!(command.line, Line::Device)
    })
}

// Its checks have begun a command of the dispenser. There is room for its plan.
fn start_cash(
    queues: &mut Queues,
    service: Service,
    ticket: Ticket,
    begun: Begun,
    room: RunningPlan,
)
    requires next { MayStart ticket (queue_of queues.old service) }
    requires payload { IfSome (start_payload (start_of begun)) IsPayload }
    ensures { queues.new ≡ with_queue queues.old service (changed_at (with_start (start_of begun)) ticket (queue_of queues.old service)) }
{
    match begun {
        Begun::Result(code, payload) => {
            queues.set_result(service, ticket, Outcome::new(code, payload));
        }
        Begun::Plan(plan) => start_plan(queues.at_mut(service), ticket, room.with(plan)),
    }
}

fn start_plan(queue: &mut Queue<Job>, ticket: Ticket, plan: RunningPlan)
    requires { MayStart ticket queue.old }
    ensures { queue.new ≡ changed_at (with_plan plan false) ticket queue.old }
{
    queue.start(ticket);
    queue.job(ticket).go_on(plan, false);
}

// The command runs.
fn start(queues: &mut Queues, service: Service, ticket: Ticket)
    requires { MayStart ticket (queue_of queues.old service) }
    ensures { queues.new ≡ with_queue queues.old service (changed_at running ticket (queue_of queues.old service)) }
{
    queues.at_mut(service).start(ticket);
}

// A command of the card reader. A Read hears that a card is awaited before the reader awaits it.
fn begin_card(
    alloc: Global,
    slot: &mut CardState,
    traffic: &mut Traffic,
    service: Service,
    ticket: Ticket,
    ask: CardAsk,
) -> Result<(), Memory>
    requires { MayStart ticket (queue_of traffic.old.queues service) }
    ensures begins { OnOk result (CardBegins ask service ticket slot.old slot.new traffic.old traffic.new) }
    ensures memory { OnErr result ((slot.new ≡ slot.old) × (traffic.new ≡ traffic.old)) }
{
    if let CardAsk::Read { tracks } = ask {
        return begin_read(alloc, slot, traffic, service, ticket, tracks);
    }
    match xfs_card::step(alloc, slot, CardEvent::Begin(ask))? {
        CardEffect::Done(code, payload) => {
            traffic
                .queues
                .set_result(service, ticket, Outcome::new(code, payload));
            Ok(())
        }
        _ => unreachable!(),
    }
}

fn begin_read(
    alloc: Global,
    slot: &mut CardState,
    traffic: &mut Traffic,
    service: Service,
    ticket: Ticket,
    tracks: [bool; 3],
) -> Result<(), Memory>
    requires { MayStart ticket (queue_of traffic.old.queues service) }
    ensures begins { OnOk result (CardBegins (CardAsk.Read tracks) service ticket slot.old slot.new traffic.old traffic.new) }
    ensures memory { OnErr result ((slot.new ≡ slot.old) × (traffic.new ≡ traffic.old)) }
{
    let frame = insert_card(alloc, ticket.id)?;
    traffic.connections.send(service, ticket.client, frame)?;
    let Ok(effect) = xfs_card::step(alloc, slot, CardEvent::Begin(CardAsk::Read { tracks })) else {
        traffic.connections.unsend(service, ticket.client);
        return Err(Memory);
    };
    match effect {
        CardEffect::AskInsert => {
            start(&mut traffic.queues, service, ticket);
            Ok(())
        }
        CardEffect::Done(code, payload) => {
            traffic.connections.unsend(service, ticket.client);
            traffic
                .queues
                .set_result(service, ticket, Outcome::new(code, payload));
            Ok(())
        }
        _ => unreachable!(),
    }
}

// A DataEntry.
fn begin_entry(
    alloc: Global,
    keypad: &mut KeyState,
    queues: &mut Queues,
    service: Service,
    ticket: Ticket,
    ask: EntryAsk,
) -> Result<(), Memory>
    requires { MayStart ticket (queue_of queues.old service) }
    ensures begins { OnOk result (EntryBegins ask service ticket keypad.old keypad.new queues.old queues.new) }
    ensures memory { OnErr result ((keypad.new ≡ keypad.old) × (queues.new ≡ queues.old)) }
{
    xfs_keyboard::step(alloc, keypad, KeyEvent::Begin(ask))?;
    start(queues, service, ticket);
    Ok(())
}
