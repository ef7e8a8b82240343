//! The first command that has its result is answered.

ghost use Rattle.std.specs.Prelude.{◌≡◌, OnErr, OnOk, IfOk, find, option_map};
ghost use Rattle.xfs_traffic.specs.Changes.{FirstIsAnswered};
ghost use Rattle.xfs_traffic.specs.Parts.{HasResult, mailed_behind};
ghost use Rattle.xfs_model.specs.Frames.{Announces, IsCompletion};
ghost use Rattle.xfs_model.specs.State.{queue_of};
ghost use Rattle.xfs_queue.specs.Commands.{is_ready};

use crate::connections::Connections;
use crate::job::{Job, Outcome};
use crate::notices::nonce_ended;
use crate::traffic::Traffic;
use std::alloc::Global;
use xfs_base::{Bytes, ClientId, Memory, Service};
use xfs_envelope::{Name, completion};
use xfs_queue::{Command, Queue, Stage};

/// Answers it, and takes it out. Where a nonce ended with it, that is announced before.
pub fn answer_first(alloc: Global, traffic: &mut Traffic, service: Service) -> Result<(), Memory>
    requires { HasResult (queue_of traffic.old.queues service) }
    ensures answers { OnOk result (FirstIsAnswered service traffic.old traffic.new) }
    ensures memory { OnErr result (traffic.new ≡ traffic.old) }
{
    let Some(command) = first_ready(traffic.queues.at(service)) else {
        unreachable!()
    };
    let Some(outcome) = &command.job.outcome else {
        unreachable!()
    };
    let (before, last) = frames_of(alloc, &command.job.name, command.id, outcome)?;
    let ticket = command.ticket();
    mail(
        alloc,
        &mut traffic.connections,
        service,
        ticket.client,
        before,
        last,
    )?;
    traffic.queues.remove(service, ticket);
    Ok(())
}

fn first_ready(queue: &Queue<Job>) -> Option<&Command<Job>>
    ensures { option_map (λ a. a.now) result ≡ find (λ a. is_ready a.stage) queue.now }
{
    queue
        .commands()
        .iter()
        .find(|command| matches!(command.stage, Stage::Ready))
}

// What announces that a nonce ended, and the completion.
fn frames_of(
    alloc: Global,
    name: &Name,
    id: u64,
    outcome: &Outcome,
) -> Result<(Option<Bytes>, Bytes), Memory>
    ensures before { IfOk result (λ f. Announces outcome.now.ending f.0) }
    ensures last { IfOk result (λ f. IsCompletion id name.now outcome.now.code outcome.now.payload f.1) }
{
    let before = match outcome.ending {
        None => None,
        Some(ending) => Some(nonce_ended(alloc, ending)?),
    };
    let last = completion(alloc, name, id, outcome.code, outcome.payload())?;
    Ok((before, Bytes::new(last)))
}

// An announcement for every connection of the service, if there is one, and then a frame for one of them.
fn mail(
    alloc: Global,
    connections: &mut Connections,
    service: Service,
    client: ClientId,
    before: Option<Bytes>,
    last: Bytes,
) -> Result<(), Memory>
    ensures ok { OnOk result (connections.new ≡ mailed_behind service client before last connections.old) }
    ensures err { OnErr result (connections.new ≡ connections.old) }
{
    let Some(frame) = before else {
        return connections.send(service, client, last);
    };
    connections.announce(alloc, service, frame.list())?;
    match connections.send(service, client, last) {
        Ok(()) => Ok(()),
        Err(Memory) => {
            connections.take_back(service);
            Err(Memory)
        }
    }
}
