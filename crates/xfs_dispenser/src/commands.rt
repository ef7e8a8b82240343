//! How commands begin.

ghost use Rattle.std.specs.Prelude.{◌≡◌, ◌≢◌, ◌↔◌, true, false, Ok, Err, IfOk, IfSome, OnErr, None, IsTrue};
ghost use Rattle.std.specs.Option.{option_map};
ghost use Rattle.xfs_guard.specs.Keeps.{Keeps, NoEntry};
ghost use Rattle.xfs_guard.specs.Upheld.{IsUpheld};
ghost use Rattle.xfs_guard.specs.declared.deny.Deny.TheVariants.{Disk};
ghost use Rattle.xfs_guard.specs.declared.open.Open.TheVariants.{No};
ghost use Rattle.xfs_envelope.specs.Messages.{IsPayload};
ghost use Rattle.xfs_envelope.specs.declared.code.Code.TheVariants as Code;
ghost use Rattle.xfs_mix.specs.Asked.{is_none};
ghost use Rattle.xfs_dispenser.specs.Answers.{plain_answer, start_of, start_payload, told};
ghost use Rattle.xfs_dispenser.specs.Begins.{Begins, EndsExchange, UnitsHaveRoom, IsDenominated, IsDispensed, IsStorageSet, StartsRefused, RoomChecks, StartsExchange, StartsOrder, StartsUnless, StorageChecks, UnitTakes, added_refusal, are_added, are_few, unit_refusal};
ghost use Rattle.xfs_dispenser.specs.Checks.{active_refusal, inactive_refusal};
ghost use Rattle.xfs_dispenser.specs.Denominations.{Denominates};
ghost use Rattle.xfs_dispenser.specs.Plans.{IsPlanned};
ghost use Rattle.xfs_dispenser.specs.Seen.{seen, LeavesNoOrder};
ghost use Rattle.xfs_dispenser.specs.declared.begun.Begun.TheVariants as Begun;
ghost use Rattle.xfs_dispenser.specs.declared.plan.Plan.{Plan};
ghost use Rattle.xfs_dispenser.specs.declared.refusal.Refusal.TheVariants as Refusal;

use crate::ask::CashAsk;
use crate::begun::Begun;
use crate::denominate::{members_refusal, notes_given};
use crate::grant::grant_to_stack;
use crate::named::Named;
use crate::notes::Notes;
use crate::payload::denomination_answer;
use crate::plan::Plan;
use crate::refusal::{Refusal, plain_answer};
use std::alloc::Global;
use xfs_base::{Bytes, Counts, Memory, UnitTable};
use xfs_common::ErrorCode;
use xfs_disk::Disk;
use xfs_envelope::Code;
use xfs_guard::{Ask, Guard};
use xfs_mech::Mechanism;

/// Begins a command: makes its checks, and does it at once or plans it. `exchange` is whether an
/// exchange of notes is active. The one record that may be appended is the Bind of a Dispense's
/// token.
pub fn begin<M: Mechanism, D: Disk>(
    alloc: Global,
    guard: &mut Guard<M, D>,
    exchange: &mut bool,
    ask: &CashAsk,
) -> Result<Begun, Memory>
    requires { guard.old.state.open_order ≡ No }
    ensures begins { IfOk result (λ b. Begins (seen D.Disk guard.old) exchange.old ask.now (seen D.Disk guard.new) exchange.new (start_of b)) }
    ensures planned { (plan : Plan) → result ≡ Ok (Begun.Plan plan) → IsPlanned guard.new.state plan }
    ensures payload { IfOk result (λ b. IfSome (start_payload (start_of b)) IsPayload) }
    ensures memory { OnErr result ((guard.new ≡ guard.old) × (exchange.new ≡ exchange.old)) }
    ensures leaves { LeavesNoOrder D.Disk guard.old guard.new }
    ensures keeps { IsUpheld D.Disk guard.old → Keeps D.Disk NoEntry guard.old guard.new }
{
    match ask {
        CashAsk::Denominate { notes } => denominate(alloc, guard, notes),
        CashAsk::Dispense { notes, token } => dispense(alloc, guard, *exchange, notes, token),
        CashAsk::Present => begin_order(alloc, *exchange, Ask::Present),
        CashAsk::Reject => begin_order(alloc, *exchange, Ask::Reject),
        CashAsk::Retract => begin_order(alloc, *exchange, Ask::Retract),
        CashAsk::Reset => begin_unless(
            alloc,
            active_refusal(*exchange),
            Begun::Plan(Plan::reset()),
        ),
        CashAsk::SetStorage { added } => set_storage(alloc, guard, *exchange, added),
        CashAsk::StartExchange => start_exchange(alloc, exchange),
        CashAsk::EndExchange => end_exchange(alloc, exchange),
    }
}

fn active_refusal(exchange: bool) -> Option<Refusal>
    ensures { result ≡ active_refusal exchange }
{
    if exchange {
        Some(Refusal::Error(ErrorCode::ExchangeActive))
    } else {
        None
    }
}

fn inactive_refusal(exchange: bool) -> Option<Refusal>
    ensures { result ≡ inactive_refusal exchange }
{
    if exchange {
        None
    } else {
        Some(Refusal::Error(ErrorCode::NoExchangeActive))
    }
}

// A refusal that applies is told.
fn tell_refusal(alloc: Global, refusal: &Refusal) -> Result<Begun, Memory>
    ensures told { IfOk result (λ b. StartsRefused refusal.now (start_of b)) }
    ensures disk { OnErr result (refusal.now ≢ Refusal.Deny Disk) }
{
    let (code, payload) = refusal.answer(alloc)?;
    Ok(Begun::Result(code, payload))
}

// A refusal that applies is told; else the command starts so.
fn begin_unless(alloc: Global, refusal: Option<Refusal>, otherwise: Begun) -> Result<Begun, Memory>
    ensures { IfOk result (λ b. StartsUnless refusal (start_of otherwise) (start_of b)) }
{
    match refusal {
        Some(refusal) => tell_refusal(alloc, &refusal),
        None => Ok(otherwise),
    }
}

fn begin_order(alloc: Global, exchange: bool, ask: Ask) -> Result<Begun, Memory>
    ensures { IfOk result (λ b. StartsOrder ask exchange (start_of b)) }
{
    begin_unless(
        alloc,
        active_refusal(exchange),
        Begun::Plan(Plan::order(ask)),
    )
}

fn start_exchange(alloc: Global, exchange: &mut bool) -> Result<Begun, Memory>
    ensures starts { IfOk result (λ b. StartsExchange exchange.old exchange.new (start_of b)) }
    ensures memory { OnErr result (exchange.new ≡ exchange.old) }
{
    if *exchange {
        return tell_refusal(alloc, &Refusal::Error(ErrorCode::ExchangeActive));
    }
    *exchange = true;
    Ok(success(alloc))
}

fn end_exchange(alloc: Global, exchange: &mut bool) -> Result<Begun, Memory>
    ensures starts { IfOk result (λ b. EndsExchange exchange.old exchange.new (start_of b)) }
    ensures memory { OnErr result (exchange.new ≡ exchange.old) }
{
    if !*exchange {
        return tell_refusal(alloc, &Refusal::Error(ErrorCode::NoExchangeActive));
    }
    *exchange = false;
    Ok(success(alloc))
}

fn success(alloc: Global) -> Begun
    ensures { start_of result ≡ told (plain_answer Code.Success) }
{
    let (code, payload) = plain_answer(alloc, Code::Success);
    Begun::Result(code, payload)
}

fn denominate<M: Mechanism, D: Disk>(
    alloc: Global,
    guard: &Guard<M, D>,
    notes: &Notes,
) -> Result<Begun, Memory>
    ensures { IfOk result (λ b. IsDenominated guard.now.state notes.now (start_of b)) }
{
    match denomination(alloc, guard, notes) {
        Ok(counts) => {
            let (code, payload) = denomination_answer(alloc, guard.units(), &counts)?;
            Ok(Begun::Result(code, payload))
        }
        Err(refusal) => tell_refusal(alloc, &refusal),
    }
}

// The notes of a denomination, by its checks in their order.
fn denomination<M: Mechanism, D: Disk>(
    alloc: Global,
    guard: &Guard<M, D>,
    notes: &Notes,
) -> Result<Counts, Refusal>
    ensures { result ≢ Err Refusal.Memory → Denominates guard.now.state notes.now result }
{
    if let Some(refusal) = members_refusal(notes) {
        return Err(refusal);
    }
    notes_given(alloc, guard.units(), &guard.places().units, notes)
}

fn dispense<M: Mechanism, D: Disk>(
    alloc: Global,
    guard: &mut Guard<M, D>,
    exchange: bool,
    notes: &Notes,
    token: &Option<Bytes>,
) -> Result<Begun, Memory>
    requires { guard.old.state.open_order ≡ No }
    ensures dispensed { IfOk result (λ b. IsDispensed (seen D.Disk guard.old) exchange notes.now token.now (seen D.Disk guard.new) (start_of b)) }
    ensures memory { OnErr result (guard.new ≡ guard.old) }
    ensures leaves { LeavesNoOrder D.Disk guard.old guard.new }
    ensures keeps { IsUpheld D.Disk guard.old → Keeps D.Disk NoEntry guard.old guard.new }
{
    if let Some(refusal) = members_refusal(notes) {
        return tell_refusal(alloc, &refusal);
    }
    if let Some(refusal) = active_refusal(exchange) {
        return tell_refusal(alloc, &refusal);
    }
    match grant_to_stack(alloc, guard, notes, token_text(token)) {
        Ok(grant) => Ok(Begun::Plan(Plan::dispense(grant.issue, &grant.counts))),
        Err(refusal) => tell_refusal(alloc, &refusal),
    }
}

fn token_text(token: &Option<Bytes>) -> Option<&[u8]>
    ensures { option_map (λ t. t.now) result ≡ token.now }
{
    match token {
        Some(token) => Some(token.list()),
        None => None,
    }
}

fn set_storage<M: Mechanism, D: Disk>(
    alloc: Global,
    guard: &Guard<M, D>,
    exchange: bool,
    added: &Named,
) -> Result<Begun, Memory>
    ensures { IfOk result (λ b. IsStorageSet guard.now.state exchange added.now (start_of b)) }
{
    match storage_added(guard, exchange, added) {
        Ok(counts) => Ok(Begun::Plan(Plan::storage(&counts))),
        Err(refusal) => tell_refusal(alloc, &refusal),
    }
}

// What is added to the units, by the checks of SetStorage in their order.
fn storage_added<M: Mechanism, D: Disk>(
    guard: &Guard<M, D>,
    exchange: bool,
    added: &Named,
) -> Result<Counts, Refusal>
    ensures { StorageChecks guard.now.state exchange added.now result }
{
    if let Some(refusal) = added_refusal(added) {
        return Err(refusal);
    }
    if let Some(refusal) = inactive_refusal(exchange) {
        return Err(refusal);
    }
    if let Some(deny) = guard.unfit() {
        return Err(Refusal::Deny(deny));
    }
    if let Some(refusal) = unit_refusal(guard.units(), added) {
        return Err(refusal);
    }
    check_room(guard, added)
}

fn added_refusal(added: &Named) -> Option<Refusal>
    ensures { result ≡ added_refusal added.now }
{
    match added {
        Named::These(counts) if !are_added(counts) => Some(Refusal::InvalidData),
        _ => None,
    }
}

fn are_added(added: &Counts) -> bool
    ensures { result ≡ are_added added.now }
{
    !is_none(&added.0) && are_few(&added.0)
}

fn are_few(counts: &[u32]) -> bool
    ensures { result ≡ are_few counts.now }
{
    counts.iter().all(|count| *count < 10_001)
}

fn unit_refusal(units: &UnitTable, added: &Named) -> Option<Refusal>
    ensures { result ≡ unit_refusal units.now added.now }
{
    match added {
        Named::These(counts) if is_none(&counts.0[usize::from(units.len())..]) => None,
        _ => Some(Refusal::Error(ErrorCode::InvalidUnit)),
    }
}

fn check_room<M: Mechanism, D: Disk>(guard: &Guard<M, D>, added: &Named) -> Result<Counts, Refusal>
    requires { unit_refusal guard.now.state.units added.now ≡ None }
    ensures { RoomChecks guard.now.state added.now result }
{
    match added {
        Named::These(counts) if has_room(guard, counts) => Ok(*counts),
        Named::These(_) => Err(Refusal::Error(ErrorCode::StorageFull)),
        Named::OtherName => unreachable!(),
    }
}

fn is_none(counts: &[u32]) -> bool
    ensures { result ≡ is_none counts.now }
{
    counts.iter().all(|count| *count == 0)
}

fn has_room<M: Mechanism, D: Disk>(guard: &Guard<M, D>, added: &Counts) -> bool
    ensures { IsTrue result ↔ UnitsHaveRoom guard.now.state added.now }
{
    for at in 0..8u8 {
        if !takes(guard, at + 1, added.0[usize::from(at)]) {
            return false;
        }
    }
    true
}

fn takes<M: Mechanism, D: Disk>(guard: &Guard<M, D>, unit: u8, count: u32) -> bool
    ensures { IsTrue result ↔ UnitTakes guard.now.state unit count }
{
    count == 0 || guard.room(unit, count)
}
