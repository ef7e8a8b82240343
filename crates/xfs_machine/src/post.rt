//! What becomes of a text that a client says.

ghost use Rattle.std.specs.Prelude.{◌≡◌, ◌≤◌, List, OnOk, OnErr};
ghost use Rattle.xfs_base.specs.declared.moment.ClientId.{ClientId};
ghost use Rattle.xfs_base.specs.declared.moment.TheConstants.{LAST_MOMENT};
ghost use Rattle.xfs_conversation.specs.Pending.{is_wrong_id};
ghost use Rattle.xfs_envelope.specs.Commands.{command_in, said};
ghost use Rattle.xfs_machine.specs.Changes.{TextIsTaken};
ghost use Rattle.xfs_model.specs.Pendings.{pending_in};
ghost use Rattle.xfs_model.specs.State.{Job};
ghost use Rattle.xfs_queue.specs.Queue.{offer_fault};
ghost use Rattle.xfs_queue.specs.declared.command.Command.{Command as PendingCommand};

use crate::immediate::do_at_once;
use std::alloc::Global;
use xfs_base::{Memory, Moment};
use xfs_conversation::is_request_id;
use xfs_disk::Disk;
use xfs_envelope::{Envelope, Status, Why};
use xfs_guard::Guard;
use xfs_mech::Mechanism;
use xfs_queue::OfferFault;
use xfs_traffic::{Reading, Sender, Traffic, accept, known_of, refuse, refuse_text};

// Takes a text. Where memory runs out nothing has changed.
pub(crate) fn take<M: Mechanism, D: Disk>(
    alloc: Global,
    guard: &Guard<M, D>,
    traffic: &mut Traffic,
    sender: Sender,
    reading: Reading<'_>,
    now: Moment,
) -> Result<(), Memory>
    requires { now.0 ≤ LAST_MOMENT }
    ensures ok { OnOk result (TextIsTaken now sender guard.now.state (command_in reading.entry) traffic.old traffic.new) }
    ensures err { OnErr result (traffic.new ≡ traffic.old) }
{
    match reading.outcome() {
        Ok(command) => take_command(alloc, guard, traffic, sender, command, now),
        Err(refuse) => {
            if refuse.why == Why::Memory {
                return Err(Memory);
            }
            refuse_text(alloc, &mut traffic.connections, sender, refuse)
        }
    }
}

fn take_command<M: Mechanism, D: Disk>(
    alloc: Global,
    guard: &Guard<M, D>,
    traffic: &mut Traffic,
    sender: Sender,
    command: Envelope,
    now: Moment,
) -> Result<(), Memory>
    requires { now.0 ≤ LAST_MOMENT }
    ensures ok { OnOk result (TextIsTaken now sender guard.now.state (Ok (said command)) traffic.old traffic.new) }
    ensures err { OnErr result (traffic.new ≡ traffic.old) }
{
    let fault = traffic
        .queues
        .at(sender.service)
        .fault_of(sender.client, command.id);
    if is_wrong_id(command.id, fault) {
        return refuse(
            alloc,
            &mut traffic.connections,
            sender,
            &command,
            Status::InvalidRequestId,
        );
    }
    let Some(known) = known_of(sender.service, command.name.as_str()) else {
        return do_at_once(alloc, guard, traffic, sender, &command);
    };
    match fault {
        Some(_) => refuse(
            alloc,
            &mut traffic.connections,
            sender,
            &command,
            Status::TooManyRequests,
        ),
        None => accept(alloc, traffic, sender, known, command, now),
    }
}

// Whether an id is none that a command may have, or is pending already.
fn is_wrong_id(id: u64, fault: Option<OfferFault>) -> bool
    ensures { (q : List (PendingCommand Job)) (client : ClientId) → fault ≡ offer_fault q client id
        → result ≡ is_wrong_id (pending_in client q) id }
{
    if !is_request_id(id) {
        return true;
    }
    match fault {
        Some(OfferFault::Busy) => true,
        Some(OfferFault::TooMany) => false,
        Some(OfferFault::Memory) => false,
        None => false,
    }
}
