//! How plans are worked on, one call of the guard a step.

ghost use Rattle.std.specs.Prelude.{◌≡◌, ◌≢◌, ◌<◌, ◌≤◌, ◌⊎◌, List, [], ◌∷◌, length, IfOk, IfSome, OnErr, Ok};
ghost use Rattle.arrayvec.specs.ArrayVec.{array_vec_len};
ghost use Rattle.xfs_envelope.specs.Messages.{IsPayload};
ghost use Rattle.xfs_guard.specs.CrashOutcomes.{MayMove};
ghost use Rattle.xfs_guard.specs.Keeps.{Keeps, NoEntry};
ghost use Rattle.xfs_guard.specs.Orders.{IsActed as IsActedOrder, IsWritten as IsWrittenOrder};
ghost use Rattle.xfs_guard.specs.Refusals.{IsAsk};
ghost use Rattle.xfs_guard.specs.declared.deny.Deny.TheVariants.{Disk};
ghost use Rattle.xfs_guard.specs.declared.open.Open.TheVariants.{No};
ghost use Rattle.xfs_mech.specs.Mechanism.{CanLoad};
ghost use Rattle.xfs_mech.specs.declared.motion.Motion.TheVariants.{Loaded};
ghost use Rattle.xfs_dispenser.specs.Answers.{IsDenial, done, plain_answer, went_of, went_payload};
ghost use Rattle.xfs_dispenser.specs.Plans.{IsPlanned};
ghost use Rattle.xfs_dispenser.specs.Seen.{seen};
ghost use Rattle.xfs_dispenser.specs.Steps.{DoesAs, IsActed, KeepsStep, MayWork, Restores, SettlesOrder, Works, onward, settled};
ghost use Rattle.xfs_dispenser.specs.declared.part.Part.{Part};
ghost use Rattle.xfs_dispenser.specs.declared.part.Part.TheVariants as Part;
ghost use Rattle.xfs_dispenser.specs.declared.progress.Progress.TheVariants as Progress;

use crate::part::Part;
use crate::payload::denomination_answer;
use crate::plan::{Plan, emptying};
use crate::progress::Progress;
use crate::refusal::{denial, plain_answer};
use std::alloc::Global;
use xfs_base::{Counts, Memory, UnitTable};
use xfs_disk::Disk;
use xfs_envelope::Code;
use xfs_guard::{Ask, BootFault, Deny, Guard};
use xfs_mech::Mechanism;

/// Does one step of a plan: an open order is acted, or settled; else the next part is begun. It
/// makes one call of the guard. What the answer tells is made before a call that writes, so that
/// want of memory leaves guard and plan as they were.
pub fn work<M: Mechanism, D: Disk>(
    alloc: Global,
    guard: &mut Guard<M, D>,
    plan: &mut Plan,
) -> Result<Progress, Memory>
    requires { IsPlanned guard.old.state plan.old }
    ensures works { IfOk result (λ p. Works (seen D.Disk guard.old) plan.old (seen D.Disk guard.new) plan.new (went_of p)) }
    ensures planned { result ≡ Ok Progress.More → IsPlanned guard.new.state plan.new }
    ensures over { IfOk result (λ p. p ≢ Progress.More → guard.new.state.open_order ≡ No) }
    ensures payload { IfOk result (λ p. IfSome (went_payload (went_of p)) IsPayload) }
    ensures memory { OnErr result ((guard.new.state ≡ guard.old.state) × (plan.new ≡ plan.old)) }
    ensures guard { KeepsStep D.Disk (MayWork guard.old.state plan.old) result guard.old guard.new }
{
    step(alloc, guard, plan)
}

fn step<M: Mechanism, D: Disk>(
    alloc: Global,
    guard: &mut Guard<M, D>,
    plan: &mut Plan,
) -> Result<Progress, Memory>
    requires { IsPlanned guard.old.state plan.old }
    ensures works { IfOk result (λ p. Works (seen D.Disk guard.old) plan.old (seen D.Disk guard.new) plan.new (went_of p)) }
    ensures memory { OnErr result ((guard.new.state ≡ guard.old.state) × (plan.new ≡ plan.old)) }
    ensures guard { KeepsStep D.Disk (MayWork guard.old.state plan.old) result guard.old guard.new }
{
    if guard.unacted().is_some() {
        return Ok(act(guard, plan));
    }
    if guard.ordering() {
        return settle(alloc, guard, plan);
    }
    match plan.parts.as_slice()[0] {
        Part::Order(ask) => order(alloc, guard, plan, ask),
        Part::Restore => restore(alloc, guard, plan),
        Part::Load { unit, count } => load(alloc, guard, plan, unit, count),
        Part::Note { unit, count } => note(alloc, guard, plan, unit, count),
    }
}

// Carries out the written order.
fn act<M: Mechanism, D: Disk>(guard: &mut Guard<M, D>, plan: &mut Plan) -> Progress
    requires { IsWrittenOrder guard.old.state.open_order }
    ensures acted { IsActed (seen D.Disk guard.old) plan.old (seen D.Disk guard.new) plan.new (went_of result) }
    ensures more { result ≡ Progress.More }
    ensures keeps { Keeps D.Disk (MayMove guard.old.state) guard.old guard.new }
{
    let outcome = guard.act();
    plan.failed = outcome.failed;
    Progress::More
}

// Writes down what the acted order did.
fn settle<M: Mechanism, D: Disk>(
    alloc: Global,
    guard: &mut Guard<M, D>,
    plan: &Plan,
) -> Result<Progress, Memory>
    requires { IsActedOrder guard.old.state.open_order }
    ensures settles { IfOk result (λ p. SettlesOrder (seen D.Disk guard.old) plan.now plan.now.failed (seen D.Disk guard.new) (went_of p)) }
    ensures memory { OnErr result (guard.new ≡ guard.old) }
    ensures guard { KeepsStep D.Disk NoEntry result guard.old guard.new }
{
    let progress = progress_after(alloc, guard.units(), plan)?;
    match guard.settle() {
        Ok(()) => Ok(progress),
        Err(_) => Ok(over(alloc, Code::DeviceNotReady)),
    }
}

// What a plan comes to once its order is settled.
fn progress_after(alloc: Global, units: &UnitTable, plan: &Plan) -> Result<Progress, Memory>
    ensures { IfOk result (λ p. went_of p ≡ settled units.now plan.now plan.now.failed) }
{
    if plan.failed {
        return Ok(over(alloc, Code::HardwareError));
    }
    onward(alloc, units, &plan.notes, plan.parts.len())
}

// What a plan that was done so far comes to, where so many parts are left.
fn onward(
    alloc: Global,
    units: &UnitTable,
    notes: &Option<Counts>,
    left: usize,
) -> Result<Progress, Memory>
    ensures { IfOk result (λ p. (parts : List Part) → length parts ≡ left → went_of p ≡ onward units.now notes.now parts) }
{
    if left != 0 {
        return Ok(Progress::More);
    }
    match notes {
        Some(counts) => {
            let (code, payload) = denomination_answer(alloc, units, counts)?;
            Ok(Progress::Result(code, payload))
        }
        None => Ok(over(alloc, Code::Success)),
    }
}

fn over(alloc: Global, code: Code) -> Progress
    ensures { went_of result ≡ done (plain_answer code) }
{
    let (code, payload) = plain_answer(alloc, code);
    Progress::Result(code, payload)
}

// A refusal of the guard is told.
fn tell_denial(alloc: Global, deny: Deny) -> Result<Progress, Memory>
    ensures told { IfOk result (λ p. IsDenial deny (went_of p)) }
    ensures disk { OnErr result (deny ≢ Disk) }
{
    let (code, payload) = denial(alloc, deny)?;
    Ok(Progress::Result(code, payload))
}

// Writes an order.
fn order<M: Mechanism, D: Disk>(
    alloc: Global,
    guard: &mut Guard<M, D>,
    plan: &mut Plan,
    ask: Ask,
) -> Result<Progress, Memory>
    requires none { guard.old.state.open_order ≡ No }
    requires asked { IsAsk guard.old.state ask }
    requires left { 0 < array_vec_len plan.old.parts }
    ensures orders { IfOk result (λ p. DoesAs (Part.Order ask) (seen D.Disk guard.old) plan.old (seen D.Disk guard.new) plan.new p) }
    ensures memory { OnErr result ((guard.new ≡ guard.old) × (plan.new ≡ plan.old)) }
    ensures keeps { Keeps D.Disk NoEntry guard.old guard.new }
{
    match guard.order(ask) {
        Ok(()) => {
            plan.parts.remove(0);
            Ok(Progress::More)
        }
        Err(deny) => tell_denial(alloc, deny),
    }
}

// Reads the journal again; what it finds on transport and in outlet is what is left to be moved.
fn restore<M: Mechanism, D: Disk>(
    alloc: Global,
    guard: &mut Guard<M, D>,
    plan: &mut Plan,
) -> Result<Progress, Memory>
    ensures restores { IfOk result (λ p. Restores (seen D.Disk guard.old) plan.old (seen D.Disk guard.new) plan.new (went_of p)) }
    ensures memory { OnErr result ((guard.new.state ≡ guard.old.state) × (plan.new ≡ plan.old)) }
    ensures guard { KeepsStep D.Disk NoEntry result guard.old guard.new }
{
    let parts = emptying(&guard.places());
    let progress = onward(alloc, guard.units(), &plan.notes, parts.len())?;
    match guard.restore() {
        Ok(()) => {
            plan.parts = parts;
            Ok(progress)
        }
        Err(BootFault::Memory) => Err(Memory),
        Err(_) => Ok(over(alloc, Code::DeviceNotReady)),
    }
}

// Loads notes into a unit.
fn load<M: Mechanism, D: Disk>(
    alloc: Global,
    guard: &mut Guard<M, D>,
    plan: &mut Plan,
    unit: u8,
    count: u32,
) -> Result<Progress, Memory>
    requires room { CanLoad guard.old.state.units guard.old.state.places unit count }
    requires left { 0 < array_vec_len plan.old.parts }
    ensures loads { IfOk result (λ p. DoesAs (Part.Load unit count) (seen D.Disk guard.old) plan.old (seen D.Disk guard.new) plan.new p) }
    ensures memory { OnErr result ((guard.new.state ≡ guard.old.state) × (plan.new ≡ plan.old)) }
    ensures guard { KeepsStep D.Disk (λ entry. entry ≡ Loaded unit count) result guard.old guard.new }
{
    let progress = onward(alloc, guard.units(), &plan.notes, plan.parts.len() - 1)?;
    let outcome = guard.load(unit, count)?;
    plan.parts.remove(0);
    if outcome.failed {
        return Ok(over(alloc, Code::HardwareError));
    }
    Ok(progress)
}

// Writes down a loading.
fn note<M: Mechanism, D: Disk>(
    alloc: Global,
    guard: &mut Guard<M, D>,
    plan: &mut Plan,
    unit: u8,
    count: u32,
) -> Result<Progress, Memory>
    requires none { guard.old.state.open_order ≡ No }
    requires low { 1 ≤ unit }
    requires high { unit ≤ length guard.old.state.units }
    requires left { 0 < array_vec_len plan.old.parts }
    ensures notes { IfOk result (λ p. DoesAs (Part.Note unit count) (seen D.Disk guard.old) plan.old (seen D.Disk guard.new) plan.new p) }
    ensures memory { OnErr result ((guard.new ≡ guard.old) × (plan.new ≡ plan.old)) }
    ensures guard { KeepsStep D.Disk NoEntry result guard.old guard.new }
{
    let progress = onward(alloc, guard.units(), &plan.notes, plan.parts.len() - 1)?;
    match guard.note_load(unit, count) {
        Ok(()) => {
            plan.parts.remove(0);
            Ok(progress)
        }
        Err(deny) => tell_denial(alloc, deny),
    }
}
