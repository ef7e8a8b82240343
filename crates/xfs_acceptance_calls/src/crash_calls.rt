//! A machine that is switched off behind an order that was carried out and not settled.

ghost use Rattle.std.specs.Prelude.{◌≡◌, Some, IfOk, IfErr};
ghost use Rattle.xfs_guard.specs.Recorded.{IsRecorded};
ghost use Rattle.xfs_guard.specs.Stored.{EachLeft};
ghost use Rattle.xfs_guard.specs.declared.open.Open.TheVariants.{No};
ghost use Rattle.xfs_mech.specs.Sim.{units_of, motions_of};

use std::alloc::Global;
use std::process::Abort;
use std::test::Fail;
use xfs_base::{Counts, Currency, Kind};
use xfs_disk::{Disk, MemDisk};
use xfs_guard::{Ask, Core, Deny, Guard};
use xfs_journal::Rec;
use xfs_mech::{Mechanism, Motion, SimMech};
use xfs_simulated::{LIMITS, core_on, empty, mechanism, units};

const NONE: Counts = Counts([0; 8]);

const TWENTY: Counts = Counts([0, 1, 0, 0, 0, 0, 0, 0]);

// A token of EUR 50 for the first nonce, under the bench's key. The HMAC is that of Python's hmac and hashlib.
const TOKEN: &[u8] =
    b"NONCE=E56A5D4028BD86530000000000000001,TOKENFORMAT=1,TOKENLENGTH=0164,DISPENSE1=50.00EUR,HMACSHA256=3D5C9E3C4712EA6A5C3803CA4CB0E54958CB4C8778ACBBB26FEA1F6935956AC2";

/// The simulated machine over an empty disk.
pub fn fresh(alloc: Global) -> Result<Core<SimMech, MemDisk>, Fail>
    ensures units { IfOk result (λ core. units_of core.mech ≡ core.units) }
    ensures starts { IfOk result (λ core. EachLeft ⟦<MemDisk as Disk>⟧ core.disk (IsRecorded core.key core.units (Some (motions_of core.mech)))) }
{
    let units = units().ok_or("the units")?;
    let mech = mechanism(alloc, &units, Vec::new(alloc)).ok_or("the mechanism")?;
    Ok(core_on(mech, units, empty(alloc), LIMITS))
}

/// A guard over a core, or the core as the refused boot handed it back.
pub fn begun<M: Mechanism, D: Disk>(
    alloc: Global,
    core: Core<M, D>,
) -> Result<Guard<M, D>, Core<M, D>>
    requires units { M.units core.mech ≡ core.units }
    requires starts { EachLeft D.Disk core.disk (IsRecorded core.key core.units (M.motions core.mech)) }
    ensures ok { IfOk result (λ g. (g.state.open_order ≡ No) × (g.state.key ≡ core.key)) }
    ensures units { IfErr result (λ c. M.units c.mech ≡ c.units) }
    ensures starts { IfErr result (λ c. EachLeft D.Disk c.disk (IsRecorded c.key c.units (M.motions c.mech))) }
    ensures key { IfErr result (λ c. c.key ≡ core.key) }
{
    let Core {
        mech,
        disk,
        key,
        seed,
        units,
        limits,
        life,
    } = core;
    match Guard::boot(alloc, mech, disk, key, seed, units.copied(), limits) {
        Ok(guard) => Ok(guard),
        Err(fail) => Err(Core {
            mech: fail.mech,
            disk: fail.disk,
            key,
            seed,
            units,
            limits,
            life,
        }),
    }
}

/// A guard over a core that boots.
pub fn booted<M: Mechanism, D: Disk>(alloc: Global, core: Core<M, D>) -> Result<Guard<M, D>, Fail>
    requires units { M.units core.mech ≡ core.units }
    requires starts { EachLeft D.Disk core.disk (IsRecorded core.key core.units (M.motions core.mech)) }
    ensures ok { IfOk result (λ g. (g.state.open_order ≡ No) × (g.state.key ≡ core.key)) }
{
    match begun(alloc, core) {
        Ok(guard) => Ok(guard),
        Err(_) => Err("the machine doesn't boot".into()),
    }
}

// The machine, switched off.
fn ended<M: Mechanism, D: Disk>(guard: Guard<M, D>, key: [u8; 32]) -> Core<M, D>
    requires key { guard.state.key ≡ key }
    ensures units { M.units result.mech ≡ result.units }
    ensures starts { EachLeft D.Disk result.disk (IsRecorded result.key result.units (M.motions result.mech)) }
{
    let units = guard.units().copied();
    let (mech, disk) = guard.end();
    Core {
        mech,
        disk,
        key,
        seed: [0; 32],
        units,
        limits: LIMITS,
        life: 0,
    }
}

// Stacks a note of EUR 20 on the token.
fn stack<D: Disk>(rt: &impl Abort, guard: &mut Guard<SimMech, D>) -> Result<(), Deny>
    requires none { guard.old.state.open_order ≡ No }
    ensures none { guard.new.state.open_order ≡ No }
    ensures key { guard.new.state.key ≡ guard.old.state.key }
{
    let claim = guard.check(TOKEN)?;
    let issue = guard.allow(claim, &TWENTY)?.issue;
    assert!(rt; 2 <= guard.units().len());
    guard.order(Ask::Stack {
        issue,
        unit: 2,
        count: 1,
    })?;
    guard.act();
    guard.settle()
}

// Pays a note of EUR 20 out, and is cut off before the order to present is settled.
fn present_unsettled<D: Disk>(
    rt: &impl Abort,
    guard: &mut Guard<SimMech, D>,
) -> Result<Counts, Deny>
    requires none { guard.old.state.open_order ≡ No }
    ensures key { guard.new.state.key ≡ guard.old.state.key }
{
    guard.issue()?;
    stack(rt, guard)?;
    guard.order(Ask::Present)?;
    Ok(guard.act().moved)
}

// The names of the records that memory has.
fn names_of(alloc: Global, records: &[Rec]) -> Result<String, Fail> {
    let mut names = String::new(alloc);
    for record in records {
        names.push_str(name_of(record))?;
        names.push(' ')?;
    }
    Ok(names)
}

fn name_of(record: &Rec) -> &'static str {
    match record {
        Rec::Issue { .. } => "Issue",
        Rec::Clear => "Clear",
        Rec::Expire => "Expire",
        Rec::Boot { .. } => "Boot",
        Rec::Start { .. } => "Start",
        Rec::Bind { .. } => "Bind",
        Rec::Order { .. } => "Order",
        Rec::Done { .. } => "Done",
        Rec::Load { .. } => "Load",
    }
}

// Whether memory has a Start alone, behind six records, and the note lies in the outlet.
fn goes_on<M: Mechanism, D: Disk>(guard: &Guard<M, D>) -> bool {
    guard.base() == 6
        && matches!(guard.records(), [Rec::Start { issues: 1, .. }])
        && guard.places().outlet == TWENTY
}

// Whether the mechanism of a guard that ended stacked and presented the note.
fn has_presented<D: Disk>(guard: Guard<SimMech, D>) -> bool {
    let (mech, disk) = guard.end();
    drop(disk);
    mech.motions() == [moved(4, Kind::Stack), moved(6, Kind::Present)].as_slice()
}

// Whether the note is paid out, and the journal has the order to present and not what was done of it.
fn is_cut_off<D: Disk>(
    rt: &impl Abort,
    alloc: Global,
    guard: &mut Guard<SimMech, D>,
) -> Result<bool, Fail>
    requires none { guard.old.state.open_order ≡ No }
    ensures key { guard.new.state.key ≡ guard.old.state.key }
{
    let moved = present_unsettled(rt, guard)?;
    let names = names_of(alloc, guard.records())?;
    Ok(moved == TWENTY && names.as_str() == "Start Issue Bind Order Done Order ")
}

#[test]
fn notes_that_were_put_out_and_not_settled_lie_in_the_outlet(rt: HostRuntime) -> Result<(), Fail> {
    let core = fresh(rt.alloc())?;
    let key = core.key;
    let mut guard = booted(rt.alloc(), core)?;
    assert!(rt; is_cut_off(&rt, rt.alloc(), &mut guard)?);
    let guard = booted(rt.alloc(), ended(guard, key))?;
    let (goes_on, has_presented) = (goes_on(&guard), has_presented(guard));
    assert!(rt; goes_on && has_presented);
    Ok(())
}

// What the order to present put out is worth EUR 20.
#[test]
fn the_note_is_worth_20_euros(rt: HostRuntime) -> Result<(), Fail> {
    let units = units().ok_or("the units")?;
    let currency = Currency::new(b"EUR").ok_or("letters")?;
    assert!(rt; TWENTY.value(&units, currency) == 20_000);
    Ok(())
}

// What an order moved of the note.
fn moved(number: u64, kind: Kind) -> Motion {
    Motion::Moved {
        number,
        kind,
        moved: TWENTY,
        diverted: NONE,
    }
}
