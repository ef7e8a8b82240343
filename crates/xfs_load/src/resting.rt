//! Rounds of work until all services are idle.

ghost use Rattle.std.specs.Prelude.{◌≡◌, ◌≢◌, ◌≤◌, ◌∷◌, [], IfOk, OnErr};
ghost use Rattle.xfs_base.specs.declared.moment.TheConstants.{LAST_MOMENT};
ghost use Rattle.xfs_guard.specs.Keeps.{Proceeds};
ghost use Rattle.xfs_load.specs.Rests.{Rests, Turns, round};
ghost use Rattle.xfs_load.specs.Steps.{HappensInPart, RestsInPart, rounds};
ghost use Rattle.xfs_machine.specs.MachineView.{guard_of};
ghost use Rattle.xfs_model.specs.Events.{work};

use xfs_base::{Memory, Moment, Service};
use xfs_disk::Disk;
use xfs_machine::{Machine, Tally, Work};
use xfs_mech::Mechanism;

// The most steps of one rest that do something.
const MOST_STEPS: u32 = 100_000;

/// Turns the services of a machine, round for round, until one round in which every service is idle, or at once when
/// 100,000 steps did something. How many did.
pub fn rest<M: Mechanism, D: Disk>(
    machine: &mut Machine<M, D>,
    now: Moment,
    tally: &mut Tally,
) -> Result<u32, Memory>
    requires { now.0 ≤ LAST_MOMENT }
    ensures rests { IfOk result (λ count. Rests now 100000 machine.old.state count machine.new.state) }
    ensures memory { OnErr result (RestsInPart now machine.old.state machine.new.state) }
    ensures proceeds { Proceeds D.Disk (guard_of machine.old) (guard_of machine.new) }
{
    let mut count = 0u32;
    while count < MOST_STEPS {
        let done = round(machine, now, MOST_STEPS - count, tally)?;
        if done == 0 {
            return Ok(count);
        }
        count += done;
    }
    Ok(count)
}

// A step at cash, card and keys each, and how many did something; at most so many.
fn round<M: Mechanism, D: Disk>(
    machine: &mut Machine<M, D>,
    now: Moment,
    most: u32,
    tally: &mut Tally,
) -> Result<u32, Memory>
    requires { now.0 ≤ LAST_MOMENT }
    ensures turns { IfOk result (λ count. Turns now round most machine.old.state count machine.new.state) }
    ensures bound { IfOk result (λ count. count ≤ most) }
    ensures memory { OnErr result (HappensInPart (rounds 1 now) machine.old.state machine.new.state) }
    ensures proceeds { Proceeds D.Disk (guard_of machine.old) (guard_of machine.new) }
{
    let cash = turn(machine, Service::Cash, now, most, tally)?;
    let card = turn(machine, Service::Card, now, most - cash, tally)?;
    let keys = turn(machine, Service::Keys, now, most - cash - card, tally)?;
    Ok(cash + card + keys)
}

// One step, unless enough did something already; 1 where it did something.
fn turn<M: Mechanism, D: Disk>(
    machine: &mut Machine<M, D>,
    service: Service,
    now: Moment,
    most: u32,
    tally: &mut Tally,
) -> Result<u32, Memory>
    requires { now.0 ≤ LAST_MOMENT }
    ensures turns { IfOk result (λ count. Turns now (service ∷ []) most machine.old.state count machine.new.state) }
    ensures bound { IfOk result (λ count. (count ≤ 1) × (count ≤ most)) }
    ensures memory { OnErr result (HappensInPart (work service now ∷ []) machine.old.state machine.new.state) }
    ensures needed { OnErr result (most ≢ 0) }
    ensures proceeds { Proceeds D.Disk (guard_of machine.old) (guard_of machine.new) }
{
    if most == 0 {
        return Ok(0);
    }
    match machine.work(service, now, tally)? {
        Work::Did => Ok(1),
        Work::Idle => Ok(0),
    }
}
