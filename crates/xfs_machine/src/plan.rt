//! A step of the plan of the dispenser's running command.

ghost use Rattle.std.specs.Prelude.{◌≡◌, ◌||◌, Some, None, IfSome, OnErr, OnOk, option_map};
ghost use Rattle.xfs_dispenser.specs.Answers.{went_of, went_payload};
ghost use Rattle.xfs_envelope.specs.Messages.{IsPayload};
ghost use Rattle.xfs_dispenser.specs.Seen.{seen};
ghost use Rattle.xfs_dispenser.specs.Steps.{KeepsStep};
ghost use Rattle.xfs_machine.specs.Changes.{PlanGoesOn};
ghost use Rattle.xfs_traffic.specs.Jobs.{changed_at};
ghost use Rattle.xfs_machine.specs.Parts.{MayStep, HasPlan, with_job_plan, with_plan_kept, with_step};
ghost use Rattle.xfs_model.specs.Guards.{is_live};
ghost use Rattle.xfs_queue.specs.Queue.{IsPending, command_at};

use std::alloc::Global;
use xfs_base::{Memory, Service};
use xfs_disk::Disk;
use xfs_dispenser::Progress;
use xfs_guard::Guard;
use xfs_mech::Mechanism;
use xfs_queue::{Queue, Ticket};
use xfs_traffic::{Job, Outcome, Queues, RunningPlan, running_command};

/// Does one step of the plan. Where memory runs out the command has its plan as before.
pub(crate) fn work_on_plan<M: Mechanism, D: Disk>(
    alloc: Global,
    guard: &mut Guard<M, D>,
    queues: &mut Queues,
) -> Result<(), Memory>
    requires { HasPlan guard.old.state queues.old.cash }
    ensures works { OnOk result (PlanGoesOn (seen D.Disk guard.old) (seen D.Disk guard.new) queues.old queues.new) }
    ensures memory { OnErr result ((guard.new.state ≡ guard.old.state) × (queues.new ≡ queues.old)) }
    ensures guard { KeepsStep D.Disk (MayStep guard.old.state queues.old.cash) result guard.old guard.new }
{
    let Some(command) = running_command(queues.at(Service::Cash)) else {
        unreachable!()
    };
    let ticket = command.ticket();
    let Some(mut plan) = take_plan(queues.at_mut(Service::Cash), ticket) else {
        unreachable!()
    };
    let lived = is_live(guard);
    match plan.work(alloc, guard) {
        Ok(progress) => {
            let ended = lived & !is_live(guard);
            step_on(queues, ticket, plan, ended, progress);
            Ok(())
        }
        Err(Memory) => {
            put_plan(queues.at_mut(Service::Cash), ticket, plan);
            Err(Memory)
        }
    }
}

fn is_live<M: Mechanism, D: Disk>(guard: &Guard<M, D>) -> bool
    ensures { result ≡ is_live (seen D.Disk guard.now) }
{
    guard.live().is_some()
}

// The command goes on with its plan, or has its result.
fn step_on(queues: &mut Queues, ticket: Ticket, plan: RunningPlan, ended: bool, progress: Progress)
    requires pending { IsPending queues.old.cash ticket }
    requires payload { IfSome (went_payload (went_of progress)) IsPayload }
    ensures { queues.new ≡ record queues.old { cash = changed_at (with_step plan ended (went_of progress)) ticket queues.old.cash } }
{
    match progress {
        Progress::More => go_on(queues.at_mut(Service::Cash), ticket, plan, ended),
        Progress::Result(code, payload) => {
            go_on(queues.at_mut(Service::Cash), ticket, plan, ended);
            queues.set_result(Service::Cash, ticket, Outcome::new(code, payload));
        }
    }
}

fn take_plan(queue: &mut Queue<Job>, ticket: Ticket) -> Option<RunningPlan>
    requires { IsPending queue.old ticket }
    ensures had { option_map (λ a. a.job.plan) (command_at queue.old ticket) ≡ Some result }
    ensures left { queue.new ≡ changed_at (with_job_plan None) ticket queue.old }
    ensures pending { IsPending queue.new ticket }
{
    queue.job(ticket).take_plan()
}

fn put_plan(queue: &mut Queue<Job>, ticket: Ticket, plan: RunningPlan)
    requires { IsPending queue.old ticket }
    ensures { queue.new ≡ changed_at (with_job_plan (Some plan)) ticket queue.old }
{
    queue.job(ticket).put_plan(plan);
}

fn go_on(queue: &mut Queue<Job>, ticket: Ticket, plan: RunningPlan, ended: bool)
    requires { IsPending queue.old ticket }
    ensures goes_on { queue.new ≡ changed_at (with_plan_kept plan ended) ticket queue.old }
    ensures pending { IsPending queue.new ticket }
{
    queue.job(ticket).step_to(plan, ended);
}
