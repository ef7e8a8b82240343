//! The commands that are done at once.

ghost use Rattle.std.specs.Prelude.{◌≡◌, true, IfOk, OnOk, OnErr, Some, is_none, if◌then◌else◌};
ghost use Rattle.std.specs.List.{list_any};
ghost use Rattle.xfs_common.specs.Cancel.{named_by};
ghost use Rattle.xfs_common.specs.Commands.{immediate_of};
ghost use Rattle.xfs_common.specs.declared.command.Immediate.TheVariants.{Cancel};
ghost use Rattle.xfs_common.specs.declared.payloads.Fit2.TheVariants as fit;
ghost use Rattle.xfs_envelope.specs.Commands.{said};
ghost use Rattle.xfs_guard.specs.Fits.{unfit};
ghost use Rattle.xfs_machine.specs.Changes.{CancelIsDone, IsDoneAtOnce};
ghost use Rattle.xfs_traffic.specs.Senders.{IsCompleted};
ghost use Rattle.xfs_common.specs.Payloads.{capabilities_payload, services_payload, status_payload};
ghost use Rattle.xfs_common.specs.declared.error.ErrorCode.TheVariants.{NoMatchingRequestIds};
ghost use Rattle.xfs_model.specs.Immediate.{ids_of, told_of};
ghost use Rattle.xfs_model.specs.Results.{error, plain, success};
ghost use Rattle.xfs_envelope.specs.declared.code.Code.TheVariants.{InvalidCommand};
ghost use Rattle.xfs_machine.specs.Immediate.{Completes, CompletesBy, is_told};
ghost use Rattle.xfs_units.specs.Payloads.{storage_payload};
ghost use Rattle.xfs_model.specs.State.{State};
ghost use Rattle.xfs_queue.specs.Commands.{names};
ghost use Rattle.xfs_queue.specs.Queue.{is_named};

use crate::present_status::told_present_status;
use std::alloc::Global;
use xfs_base::{Bytes, ClientId, Memory, Service};
use xfs_common::{
    CancelWhat, ErrorCode, Fit2, Immediate, ReadFail, capabilities, error_code, nothing,
    read_cancel, services, status_text,
};
use xfs_disk::Disk;
use xfs_envelope::{Code, Envelope, completion, completion_of_text};
use xfs_guard::Guard;
use xfs_mech::Mechanism;
use xfs_queue::{Command, Ids, Queue};
use xfs_traffic::{Connections, Job, Outcome, Sender, Traffic, acceptance_reply};
use xfs_units::storage;

// Accepts a command and completes it. Where memory runs out nothing has changed.
pub(crate) fn do_at_once<M: Mechanism, D: Disk>(
    alloc: Global,
    guard: &Guard<M, D>,
    traffic: &mut Traffic,
    sender: Sender,
    command: &Envelope,
) -> Result<(), Memory>
    ensures ok { OnOk result (IsDoneAtOnce sender guard.now.state (said command.now) traffic.old traffic.new) }
    ensures err { OnErr result (traffic.new ≡ traffic.old) }
{
    let asked = Immediate::named(sender.service, command.name.as_str());
    match asked {
        Some(Immediate::Cancel) => cancel(alloc, traffic, sender, command),
        Some(Immediate::GetPresentStatus) => {
            let outcome = told_present_status(alloc, guard, &command.payload)?;
            complete(alloc, &mut traffic.connections, sender, command, &outcome)
        }
        Some(Immediate::Status) => answer(alloc, guard, traffic, sender, command, asked),
        Some(Immediate::Capabilities) => answer(alloc, guard, traffic, sender, command, asked),
        Some(Immediate::GetServices) => answer(alloc, guard, traffic, sender, command, asked),
        Some(Immediate::GetStorage) => answer(alloc, guard, traffic, sender, command, asked),
        None => answer(alloc, guard, traffic, sender, command, asked),
    }
}

// Answers a command by what is told of the machine.
fn answer<M: Mechanism, D: Disk>(
    alloc: Global,
    guard: &Guard<M, D>,
    traffic: &mut Traffic,
    sender: Sender,
    command: &Envelope,
    asked: Option<Immediate>,
) -> Result<(), Memory>
    requires told { is_told asked ≡ true }
    requires named { immediate_of sender.service command.now.name ≡ asked }
    ensures ok { OnOk result (IsDoneAtOnce sender guard.now.state (said command.now) traffic.old traffic.new) }
    ensures err { OnErr result (traffic.new ≡ traffic.old) }
{
    let last = told_frame(alloc, guard, sender.service, command, asked)?;
    send_both(alloc, &mut traffic.connections, sender, command, last)
}

// The acknowledge and the completion are sent, or neither.
fn complete(
    alloc: Global,
    connections: &mut Connections,
    sender: Sender,
    command: &Envelope,
    outcome: &Outcome,
) -> Result<(), Memory>
    ensures ok { OnOk result (IsCompleted sender (said command.now) outcome.now connections.old connections.new) }
    ensures err { OnErr result (connections.new ≡ connections.old) }
{
    let last = completion_frame(alloc, command, outcome)?;
    send_both(alloc, connections, sender, command, last)
}

fn send_both(
    alloc: Global,
    connections: &mut Connections,
    sender: Sender,
    command: &Envelope,
    last: Bytes,
) -> Result<(), Memory>
    ensures ok { OnOk result (CompletesBy sender (said command.now) last connections.old connections.new) }
    ensures err { OnErr result (connections.new ≡ connections.old) }
{
    let reply = acceptance_reply(alloc, command)?;
    connections.send_two(sender.service, sender.client, reply, last)
}

fn completion_frame(alloc: Global, command: &Envelope, outcome: &Outcome) -> Result<Bytes, Memory>
    ensures { IfOk result (Completes (said command.now) outcome.now) }
{
    let code = outcome.code();
    Ok(Bytes::new(completion(alloc, &command.name, command.id, code, outcome.payload())?))
}

// The completion that tells of the machine. A Status has so few of them that each is known as a text.
fn told_frame<M: Mechanism, D: Disk>(
    alloc: Global,
    guard: &Guard<M, D>,
    service: Service,
    command: &Envelope,
    asked: Option<Immediate>,
) -> Result<Bytes, Memory>
    ensures { IfOk result (λ f. (s : State) → s.seen.guard ≡ guard.now.state → Completes (said command.now) (told_of s service asked) f) }
{
    match asked {
        Some(Immediate::Status) => status_frame(alloc, command, service, health(guard)),
        Some(Immediate::Capabilities) => {
            completion_frame(alloc, command, &tell_capabilities(alloc, service)?)
        }
        Some(Immediate::GetServices) => completion_frame(alloc, command, &tell_services(alloc)?),
        Some(Immediate::GetStorage) => completion_frame(
            alloc,
            command,
            &tell_storage(alloc, guard)?,
        ),
        Some(Immediate::Cancel) => completion_frame(alloc, command, &invalid(alloc)),
        Some(Immediate::GetPresentStatus) => completion_frame(alloc, command, &invalid(alloc)),
        None => completion_frame(alloc, command, &invalid(alloc)),
    }
}

fn status_frame(
    alloc: Global,
    command: &Envelope,
    service: Service,
    health: Fit2,
) -> Result<Bytes, Memory>
    ensures { IfOk result (Completes (said command.now) (success (status_payload service health))) }
{
    let payload = status_text(service, health);
    let text = completion_of_text(alloc, &command.name, command.id, Code::Success, payload)?;
    Ok(Bytes::new(text))
}

fn invalid(alloc: Global) -> Outcome
    ensures { result ≡ plain InvalidCommand }
{
    Outcome::new(Code::InvalidCommand, nothing(alloc))
}

// The dispenser is out of order while its journal takes no more records.
fn health<M: Mechanism, D: Disk>(guard: &Guard<M, D>) -> Fit2
    ensures { result ≡ (if is_none (unfit guard.now.state) then fit.Online else fit.HardwareError) }
{
    match guard.unfit() {
        None => Fit2::Online,
        Some(_) => Fit2::HardwareError,
    }
}

fn tell_capabilities(alloc: Global, service: Service) -> Result<Outcome, Memory>
    ensures { IfOk result (λ o. o ≡ success (capabilities_payload service)) }
{
    Ok(Outcome::new(Code::Success, capabilities(alloc, service)?))
}

fn tell_services(alloc: Global) -> Result<Outcome, Memory>
    ensures { IfOk result (λ o. o ≡ success services_payload) }
{
    Ok(Outcome::new(Code::Success, services(alloc)?))
}

fn tell_storage<M: Mechanism, D: Disk>(
    alloc: Global,
    guard: &Guard<M, D>,
) -> Result<Outcome, Memory>
    ensures { IfOk result (λ o. o ≡ success (storage_payload guard.now.state.units guard.now.state.places)) }
{
    let places = guard.places();
    let payload = storage(alloc, guard.units(), &places)?;
    Ok(Outcome::new(Code::Success, payload))
}

// A Cancel stops the named commands of its client, where one of them is pending.
fn cancel(
    alloc: Global,
    traffic: &mut Traffic,
    sender: Sender,
    command: &Envelope,
) -> Result<(), Memory>
    requires { immediate_of sender.service command.now.name ≡ Some Cancel }
    ensures ok { OnOk result (CancelIsDone sender (said command.now) traffic.old traffic.new) }
    ensures err { OnErr result (traffic.new ≡ traffic.old) }
{
    let ids = match read_cancel(alloc, &command.payload) {
        Ok(what) => ids_of(what),
        Err(ReadFail::Shape) => {
            let outcome = Outcome::new(Code::InvalidData, nothing(alloc));
            return complete(alloc, &mut traffic.connections, sender, command, &outcome);
        }
        Err(ReadFail::Memory) => return Err(Memory),
    };
    if !names_one(traffic.queues.at(sender.service), sender.client, &ids) {
        let outcome = no_matching(alloc)?;
        return complete(alloc, &mut traffic.connections, sender, command, &outcome);
    }
    let outcome = Outcome::new(Code::Success, nothing(alloc));
    complete(alloc, &mut traffic.connections, sender, command, &outcome)?;
    traffic
        .queues
        .stop(alloc, sender.service, sender.client, &ids);
    Ok(())
}

fn no_matching(alloc: Global) -> Result<Outcome, Memory>
    ensures { IfOk result (λ o. o ≡ error NoMatchingRequestIds) }
{
    Ok(Outcome::new(
        Code::CommandErrorCode,
        error_code(alloc, ErrorCode::NoMatchingRequestIds.text())?,
    ))
}

fn ids_of(what: CancelWhat) -> Ids
    ensures { result ≡ ids_of (named_by what) }
{
    match what {
        CancelWhat::All => Ids::All,
        CancelWhat::These(ids) => Ids::These(ids),
    }
}

fn names_one(queue: &Queue<Job>, client: ClientId, ids: &Ids) -> bool
    ensures { result ≡ list_any (is_named client ids.now) queue.now }
{
    queue
        .commands()
        .iter()
        .any(|command| is_named(command, client, ids))
}

fn is_named(command: &Command<Job>, client: ClientId, ids: &Ids) -> bool
    ensures { result ≡ is_named client ids.now command.now }
{
    command.client.0 == client.0 && names(ids, command.id)
}

fn names(ids: &Ids, id: u64) -> bool
    ensures { result ≡ names ids.now id }
{
    match ids {
        Ids::All => true,
        Ids::These(ids) => ids.list().contains(&id),
    }
}
