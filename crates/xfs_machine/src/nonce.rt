//! The commands of the nonce line: GetCommandNonce and ClearCommandNonce.

ghost use Rattle.std.specs.Prelude.{◌≡◌, ◌≢◌, ◌≤◌, ◌⊎◌, Some, None, IfOk, IfSome, OnErr, OnOk, find, if◌then◌else◌, option_map};
ghost use Rattle.xfs_base.specs.declared.moment.TheConstants.{LAST_MOMENT};
ghost use Rattle.xfs_common.specs.Payloads.{nothing as nothing_said};
ghost use Rattle.xfs_dispenser.specs.Seen.{seen};
ghost use Rattle.xfs_guard.specs.Keeps.{Keeps, NoEntry, Proceeds};
ghost use Rattle.xfs_guard.specs.Upheld.{IsUpheld};
ghost use Rattle.xfs_guard.specs.declared.open.Open.TheVariants.{No};
ghost use Rattle.xfs_machine.specs.Changes.{FirstOfNonces, NonceCleared, NonceDone};
ghost use Rattle.xfs_traffic.specs.Jobs.{ask_seen};
ghost use Rattle.xfs_machine.specs.Parts.{HasNonceAsk};
ghost use Rattle.xfs_envelope.specs.declared.code.Code.TheVariants.{DeviceNotReady};
ghost use Rattle.xfs_model.specs.Results.{plain, success};
ghost use Rattle.xfs_model.specs.State.{clear, cleared as ended, issue};
ghost use Rattle.xfs_queue.specs.Commands.{ticket_of, waits_on};
ghost use Rattle.xfs_queue.specs.Queue.{IsQueue, IsWaiting};
ghost use Rattle.xfs_queue.specs.declared.command.Line.TheVariants as Line;

use crate::dispenser::Dispenser;
use std::alloc::Global;
use xfs_base::{Memory, Moment, Service};
use xfs_common::{nonce, nothing};
use xfs_disk::Disk;
use xfs_envelope::Code;
use xfs_guard::{Deny, Guard};
use xfs_mech::Mechanism;
use xfs_queue::{Command, Line, Queue, Stage};
use xfs_traffic::{Ask, Ending, Job, Outcome, Queues};

/// Does the first command of the line. Where its deadline has come it has the result `timeOut`.
pub(crate) fn take_first<M: Mechanism, D: Disk>(
    alloc: Global,
    dispenser: &mut Dispenser<M, D>,
    queues: &mut Queues,
    now: Moment,
) -> Result<(), Memory>
    requires none { dispenser.old.guard.state.open_order ≡ No }
    requires moment { now.0 ≤ LAST_MOMENT }
    requires asks { HasNonceAsk queues.old.cash }
    ensures takes { OnOk result (FirstOfNonces D.Disk now dispenser.old dispenser.new queues.old queues.new) }
    ensures memory { OnErr result ((dispenser.new ≡ dispenser.old) × (queues.new ≡ queues.old)) }
    ensures proceeds { Proceeds D.Disk dispenser.old.guard dispenser.new.guard }
    ensures keeps { IsUpheld D.Disk dispenser.old.guard → Keeps D.Disk NoEntry dispenser.old.guard dispenser.new.guard }
{
    let Some(command) = first_asking(queues.at(Service::Cash)) else {
        unreachable!()
    };
    let ticket = command.ticket();
    let outcome = if queues.at(Service::Cash).due(ticket, now) {
        Outcome::new(Code::TimeOut, nothing(alloc))
    } else {
        do_ask(
            alloc,
            &mut dispenser.guard,
            &mut dispenser.issued,
            now,
            command.job.ask(),
        )?
    };
    queues.set_result(Service::Cash, ticket, outcome);
    Ok(())
}

// The first that waits on the nonce line.
fn first_asking(queue: &Queue<Job>) -> Option<&Command<Job>>
    ensures first { option_map (λ a. a.now) result ≡ find (waits_on Line.Nonce) queue.now }
    ensures waiting { IfSome result (λ a. IsWaiting queue.now (ticket_of a.now)) }
    ensures valid { IsQueue queue.now }
{
    queue.commands().iter().find(|command| {
        matches!(command.stage, Stage::Waiting) && matches!(command.line, Line::Nonce)
    })
}

fn do_ask<M: Mechanism, D: Disk>(
    alloc: Global,
    guard: &mut Guard<M, D>,
    issued: &mut Moment,
    now: Moment,
    ask: &Ask,
) -> Result<Outcome, Memory>
    requires none { guard.old.state.open_order ≡ No }
    requires asks { (ask_seen ask.now ≡ issue) ⊎ (ask_seen ask.now ≡ clear) }
    ensures done { IfOk result (NonceDone (ask_seen ask.now) now (seen D.Disk guard.old) (seen D.Disk guard.new) issued.old issued.new) }
    ensures memory { OnErr result ((guard.new ≡ guard.old) × (issued.new ≡ issued.old)) }
    ensures keeps { Keeps D.Disk NoEntry guard.old guard.new }
{
    match ask {
        Ask::Issue => issue(alloc, guard, issued, now),
        Ask::Clear => clear(alloc, guard),
        Ask::Cash(_) | Ask::Card(_) | Ask::Entry(_) | Ask::Bad => unreachable!(),
    }
}

// Issues a nonce. The text of the answer is made before the nonce is written.
fn issue<M: Mechanism, D: Disk>(
    alloc: Global,
    guard: &mut Guard<M, D>,
    issued: &mut Moment,
    now: Moment,
) -> Result<Outcome, Memory>
    requires { guard.old.state.open_order ≡ No }
    ensures done { IfOk result (NonceDone issue now (seen D.Disk guard.old) (seen D.Disk guard.new) issued.old issued.new) }
    ensures memory { OnErr result ((guard.new ≡ guard.old) × (issued.new ≡ issued.old)) }
    ensures keeps { Keeps D.Disk NoEntry guard.old guard.new }
{
    if let Some(_deny) = guard.unfit() {
        return Ok(not_ready(alloc));
    }
    let next = guard.next_nonce()?;
    let payload = nonce(alloc, &next.text)?;
    match guard.issue() {
        Ok(_) => {
            *issued = now;
            Ok(Outcome::new(Code::Success, payload))
        }
        Err(deny) => failure(alloc, deny),
    }
}

// Ends the live nonce, if there is one.
fn clear<M: Mechanism, D: Disk>(alloc: Global, guard: &mut Guard<M, D>) -> Result<Outcome, Memory>
    requires { guard.old.state.open_order ≡ No }
    ensures done { IfOk result (NonceCleared (seen D.Disk guard.old) (seen D.Disk guard.new)) }
    ensures memory { OnErr result (guard.new ≡ guard.old) }
    ensures keeps { Keeps D.Disk NoEntry guard.old guard.new }
{
    if let Some(_deny) = guard.unfit() {
        return Ok(not_ready(alloc));
    }
    match guard.clear() {
        Ok(lived) => Ok(clear_outcome(alloc, lived)),
        Err(deny) => failure(alloc, deny),
    }
}

// The answer where the guard refused a call that nothing refuses before.
fn failure(alloc: Global, deny: Deny) -> Result<Outcome, Memory>
    ensures told { IfOk result (λ o. (o ≡ plain DeviceNotReady) × (deny ≢ Deny.Memory)) }
    ensures memory { OnErr result (deny ≡ Deny.Memory) }
{
    if deny == Deny::Memory {
        return Err(Memory);
    }
    Ok(not_ready(alloc))
}

fn not_ready(alloc: Global) -> Outcome
    ensures { result ≡ plain DeviceNotReady }
{
    Outcome::new(Code::DeviceNotReady, nothing(alloc))
}

// The live nonce ended, where there was one.
fn clear_outcome(alloc: Global, lived: bool) -> Outcome
    ensures { result ≡ record (success nothing_said) { ending = if lived then Some ended else None } }
{
    let ending = if lived { Some(Ending::Cleared) } else { None };
    Outcome::with_ending(Code::Success, nothing(alloc), ending)
}
