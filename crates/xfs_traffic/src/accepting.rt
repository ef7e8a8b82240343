//! Whether a command is taken in, and the acknowledge that tells it.

ghost use Rattle.std.specs.Prelude.{◌≡◌, ◌≤◌, IfOk, OnOk, OnErr, None, Some};
ghost use Rattle.xfs_base.specs.declared.moment.TheConstants.{LAST_MOMENT};
ghost use Rattle.xfs_envelope.specs.Commands.{said};
ghost use Rattle.xfs_envelope.specs.declared.code.Status.TheVariants.{InvalidMessage};
ghost use Rattle.xfs_traffic.specs.Senders.{IsAccepted, IsTurnedAway};
ghost use Rattle.xfs_model.specs.Frames.{IsAcknowledge};
ghost use Rattle.xfs_model.specs.State.{queue_of};
ghost use Rattle.xfs_queue.specs.Queue.{offer_fault};

use crate::asks::{ask_of, line_of};
use crate::connections::Connections;
use crate::job::Job;
use crate::traffic::Traffic;
use std::alloc::Global;
use xfs_base::{Bytes, ClientId, Memory, Moment, Service};
use xfs_envelope::{Envelope, Refuse, Status, acknowledge};
use xfs_model::Known;
use xfs_queue::Ticket;

/// A client, and the service that it is connected to.
#[derive(Clone, Copy)]
pub struct Sender {
    pub client: ClientId,
    pub service: Service,
}

/// Tells that a text was no command.
pub fn refuse_text(
    alloc: Global,
    connections: &mut Connections,
    sender: Sender,
    refuse: Refuse,
) -> Result<(), Memory>
    ensures ok { OnOk result (IsTurnedAway sender refuse.id None InvalidMessage connections.old connections.new) }
    ensures err { OnErr result (connections.new ≡ connections.old) }
{
    let reply = misread_reply(alloc, refuse)?;
    connections.send(sender.service, sender.client, reply)
}

fn misread_reply(alloc: Global, refuse: Refuse) -> Result<Bytes, Memory>
    ensures { IfOk result (λ f. IsAcknowledge refuse.id None (Some InvalidMessage) f) }
{
    let id = widen(refuse.id);
    Ok(Bytes::new(acknowledge(alloc, None, id, Some(Status::InvalidMessage))?))
}

fn widen(id: Option<u32>) -> Option<u64>
    ensures { result ≡ id }
{
    match id {
        Some(id) => Some(u64::from(id)),
        None => None,
    }
}

/// Tells that a command is not taken in, and why.
pub fn refuse(
    alloc: Global,
    connections: &mut Connections,
    sender: Sender,
    command: &Envelope,
    why: Status,
) -> Result<(), Memory>
    ensures ok { OnOk result (IsTurnedAway sender (Some command.now.id) (Some command.now.name) why connections.old connections.new) }
    ensures err { OnErr result (connections.new ≡ connections.old) }
{
    let reply = refusal_reply(alloc, command, why)?;
    connections.send(sender.service, sender.client, reply)
}

fn refusal_reply(alloc: Global, command: &Envelope, why: Status) -> Result<Bytes, Memory>
    ensures { IfOk result (λ f. IsAcknowledge (Some command.now.id) (Some command.now.name) (Some why) f) }
{
    Ok(Bytes::new(acknowledge(alloc, Some(&command.name), Some(command.id), Some(why))?))
}

/// The acknowledge of a command that is taken in.
pub fn acceptance_reply(alloc: Global, command: &Envelope) -> Result<Bytes, Memory>
    ensures { IfOk result (λ f. IsAcknowledge (Some command.now.id) (Some command.now.name) None f) }
{
    Ok(Bytes::new(acknowledge(alloc, Some(&command.name), Some(command.id), None)?))
}

/// The command is pending from now on. Where its acknowledge can't be sent, it is taken out again.
pub fn accept(
    alloc: Global,
    traffic: &mut Traffic,
    sender: Sender,
    known: Known,
    command: Envelope,
    now: Moment,
) -> Result<(), Memory>
    requires moment { now.0 ≤ LAST_MOMENT }
    requires free { offer_fault (queue_of traffic.old.queues sender.service) sender.client command.id ≡ None }
    ensures ok { OnOk result (IsAccepted now sender known (said command) traffic.old traffic.new) }
    ensures err { OnErr result (traffic.new ≡ traffic.old) }
{
    let reply = acceptance_reply(alloc, &command)?;
    let ask = ask_of(alloc, known, &command.payload)?;
    let ticket = Ticket {
        client: sender.client,
        id: command.id,
    };
    let job = Job::new(command.name, ask);
    traffic.queues.offer(
        sender.service,
        ticket,
        line_of(known),
        command.timeout,
        now,
        job,
    )?;
    match traffic
        .connections
        .send(sender.service, sender.client, reply)
    {
        Ok(()) => Ok(()),
        Err(Memory) => {
            traffic.queues.remove(sender.service, ticket);
            Err(Memory)
        }
    }
}
