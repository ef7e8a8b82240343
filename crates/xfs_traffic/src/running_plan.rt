//! The plan of a running command.

ghost use Rattle.std.specs.Prelude.{◌≡◌, IfOk, IfSome, OnErr};
ghost use Rattle.xfs_dispenser.specs.Answers.{went_of, went_payload};
ghost use Rattle.xfs_dispenser.specs.Plans.{IsPlanned};
ghost use Rattle.xfs_dispenser.specs.Seen.{seen};
ghost use Rattle.xfs_dispenser.specs.Steps.{KeepsStep, MayWork, Works};
ghost use Rattle.xfs_envelope.specs.Messages.{IsPayload};

use arrayvec::ArrayVec;
use std::alloc::Global;
use std::marker::Model;
use xfs_base::Memory;
use xfs_disk::Disk;
use xfs_dispenser::{Plan, Progress, work};
use xfs_guard::Guard;
use xfs_mech::Mechanism;

/// A plan in a box, so that a command without one is small, and moves without it. Contracts see the plan.
#[derive(Drop)]
pub struct RunningPlan {
    plan: Box<Plan>,
}

impl Model for RunningPlan {
    ghost use Rattle.xfs_dispenser.specs.declared.plan.Plan.{Plan};

    ghost Value = { Plan };

    ghost view = { λ r. r.plan.value };
}

impl RunningPlan {
    /// Memory for a plan, so that none is wanting once the guard was called.
    pub fn room(alloc: Global) -> Result<RunningPlan, Memory> {
        let none = Plan {
            notes: None,
            parts: ArrayVec::new(),
            failed: false,
        };
        Ok(RunningPlan {
            plan: Box::new(alloc, none)?,
        })
    }

    /// This plan, where another was. It takes no memory.
    pub fn with(mut self, plan: Plan) -> RunningPlan
        ensures { result ≡ plan }
    {
        *self.plan = plan;
        self
    }

    /// Does one step of it.
    pub fn work<M: Mechanism, D: Disk>(
        &mut self,
        alloc: Global,
        guard: &mut Guard<M, D>,
    ) -> Result<Progress, Memory>
        requires { IsPlanned guard.old.state self.old }
        ensures works { IfOk result (λ p. Works (seen D.Disk guard.old) self.old (seen D.Disk guard.new) self.new (went_of p)) }
        ensures payload { IfOk result (λ p. IfSome (went_payload (went_of p)) IsPayload) }
        ensures memory { OnErr result ((guard.new.state ≡ guard.old.state) × (self.new ≡ self.old)) }
        ensures guard { KeepsStep D.Disk (MayWork guard.old.state self.old) result guard.old guard.new }
    {
        work(alloc, guard, &mut self.plan)
    }
}
