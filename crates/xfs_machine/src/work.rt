//! One step of a service's work.

ghost use Rattle.std.specs.Prelude.{◌≡◌, ◌≤◌, Ok, OnErr, OnOk};
ghost use Rattle.xfs_base.specs.Causes.{next_count};
ghost use Rattle.xfs_base.specs.declared.moment.TheConstants.{LAST_MOMENT};
ghost use Rattle.xfs_guard.specs.Keeps.{Keeps, NoEntry, Proceeds};
ghost use Rattle.xfs_guard.specs.Upheld.{IsUpheld};
ghost use Rattle.xfs_machine.specs.Answers.{worked};
ghost use Rattle.xfs_machine.specs.Changes.{CaseIsDone, IsOnlyRead};
ghost use Rattle.xfs_machine.specs.Chosen.{case_seen};
ghost use Rattle.xfs_machine.specs.Laws.{IsLawful};
ghost use Rattle.xfs_machine.specs.MachineView.{guard_of};
ghost use Rattle.xfs_machine.specs.Working.{CanDo, CaseUpholds, MayAddAt};
ghost use Rattle.xfs_model.specs.Cases.{told_by};
ghost use Rattle.xfs_model.specs.Events.{work};
ghost use Rattle.xfs_model.specs.Step.{Step, at_moment};

use crate::answer::Work;
use crate::begin::begin_first;
use crate::cases::{Case, case_of};
use crate::dispenser::Dispenser;
use crate::life::expire;
use crate::machine::{Machine, later};
use crate::nonce::take_first;
use crate::plan::work_on_plan;
use crate::tally::Tally;
use std::alloc::Global;
use xfs_base::{Memory, Moment, Service};
use xfs_disk::Disk;
use xfs_mech::Mechanism;
use xfs_traffic::{Devices, Traffic, answer_first, stop_running, time_out};

impl<M: Mechanism, D: Disk> Machine<M, D> {
    /// Does one step of a service's work: the first case that applies. It is `Idle` exactly where none does.
    /// After `Memory` the step may be tried again; journal and mechanism are as before.
    pub fn work(&mut self, service: Service, now: Moment, tally: &mut Tally) -> Result<Work, Memory>
        requires { now.0 ≤ LAST_MOMENT }
        ensures step { Step self.old.state (work service now) (worked result) self.new.state }
        ensures laws { IsLawful self.old.state (work service now) (worked result) self.new.state }
        ensures proceeds { Proceeds D.Disk (guard_of self.old) (guard_of self.new) }
        ensures keeps { OnOk result (Keeps D.Disk (MayAddAt (at_moment self.old.state now) service) (guard_of self.old) (guard_of self.new)) }
        ensures still { OnErr result (Keeps D.Disk NoEntry (guard_of self.old) (guard_of self.new)) }
        ensures tally { tally.new ≡ record tally.old { works = next_count tally.old.works } }
    {
        tally.count_work();
        let now = later(self.moment, now);
        let case = case_of(&self.dispenser, &self.traffic.queues, service, now);
        carry_out(
            self.alloc,
            case,
            &mut self.dispenser,
            &mut self.devices,
            &mut self.traffic,
            service,
            now,
        )?;
        self.moment = now;
        Ok(told_by(case))
    }
}

// What a case does to the parts of a machine.
fn carry_out<M: Mechanism, D: Disk>(
    alloc: Global,
    case: Case,
    dispenser: &mut Dispenser<M, D>,
    devices: &mut Devices,
    traffic: &mut Traffic,
    service: Service,
    now: Moment,
) -> Result<(), Memory>
    requires moment { now.0 ≤ LAST_MOMENT }
    requires can { CanDo (case_seen case) dispenser.old.guard.state now traffic.old.queues service }
    ensures does { OnOk result (CaseIsDone D.Disk case service now dispenser.old dispenser.new devices.old devices.new traffic.old traffic.new) }
    ensures memory { OnErr result (IsOnlyRead dispenser.old dispenser.new × (devices.new ≡ devices.old) × (traffic.new ≡ traffic.old)) }
    ensures proceeds { Proceeds D.Disk dispenser.old.guard dispenser.new.guard }
    ensures keeps { CaseUpholds D.Disk case traffic.old.queues result dispenser.old.guard dispenser.new.guard }
    ensures still { IsUpheld D.Disk dispenser.old.guard → OnErr result (Keeps D.Disk NoEntry dispenser.old.guard dispenser.new.guard) }
{
    match case {
        Case::Order => work_on_plan(alloc, &mut dispenser.guard, &mut traffic.queues),
        Case::GoOn => work_on_plan(alloc, &mut dispenser.guard, &mut traffic.queues),
        Case::Expire => expire(alloc, &mut dispenser.guard, &mut traffic.connections),
        Case::Answer => answer_first(alloc, traffic, service),
        Case::Nonce => take_first(alloc, dispenser, &mut traffic.queues, now),
        Case::Overdue => {
            time_out(alloc, &mut traffic.queues, service, now);
            Ok(())
        }
        Case::Stop => stop_running(alloc, devices, &mut traffic.queues, service, now),
        Case::Begin => begin_first(alloc, dispenser, devices, traffic, service),
        Case::Rest => Ok(()),
    }
}

// Something was done, but where no case applied.
fn told_by(case: Case) -> Work
    ensures { worked (Ok result) ≡ told_by (case_seen case) }
{
    match case {
        Case::Rest => Work::Idle,
        _ => Work::Did,
    }
}
