//! How an order is carried out at once, and how notes are stacked by one order a unit.

ghost use Rattle.std.specs.Prelude.{◌≡◌, ◌≢◌, Err, IfErr, IsTrue, drop, length};
ghost use Rattle.xfs_guard.specs.Refusals.{Answers, IsAsk};
ghost use Rattle.xfs_guard.specs.declared.deny.Deny.TheVariants.{Memory as NoMemory};
ghost use Rattle.xfs_guard.specs.declared.open.Open.TheVariants.{No};
ghost use Rattle.xfs_mix.specs.Asked.{is_none};
ghost use Rattle.xfs_dispenser.specs.Carried.{CarriesOut, StacksAll, StacksFirst};
ghost use Rattle.xfs_dispenser.specs.Seen.{seen, LeavesNoOrder};
ghost use Rattle.xfs_dispenser.specs.Steps.{refusal_of};

use xfs_base::Counts;
use xfs_disk::Disk;
use xfs_guard::{Ask, Deny, Guard};
use xfs_mech::{Mechanism, Outcome};

/// Writes an order, carries it out, and writes down what it did. After a refusal as `Disk` the
/// journal is shut, and the order may have been acted; every other refusal changes nothing.
pub fn carry_out<M: Mechanism, D: Disk>(guard: &mut Guard<M, D>, ask: Ask) -> Result<Outcome, Deny>
    requires none { guard.old.state.open_order ≡ No }
    requires asked { IsAsk guard.old.state ask }
    ensures carried { result ≢ Err NoMemory → CarriesOut (seen D.Disk guard.old) ask result (seen D.Disk guard.new) }
    ensures refused { Answers result (refusal_of guard.old.state ask) }
    ensures same { IfErr result (λ e. e ≢ Deny.Disk → guard.new ≡ guard.old) }
    ensures leaves { LeavesNoOrder D.Disk guard.old guard.new }
{
    guard.order(ask)?;
    let outcome = guard.act();
    guard.settle()?;
    Ok(outcome)
}

/// Stacks these notes on the token of the nonce of this issue number, unit by unit, rising. The
/// first order that is refused or fails ends it; what was stacked before it stays so.
pub fn stack_all<M: Mechanism, D: Disk>(
    guard: &mut Guard<M, D>,
    issue: u64,
    counts: &Counts,
) -> Result<Outcome, Deny>
    requires none { guard.old.state.open_order ≡ No }
    requires few { IsTrue (is_none (drop (length guard.old.state.units) counts.now.0)) }
    ensures stacked { result ≢ Err NoMemory → StacksAll issue counts.now (seen D.Disk guard.old) result (seen D.Disk guard.new) }
    ensures memory { result ≡ Err NoMemory → StacksFirst issue counts.now.0 (seen D.Disk guard.old) (seen D.Disk guard.new) }
    ensures leaves { LeavesNoOrder D.Disk guard.old guard.new }
{
    let mut all = Outcome {
        moved: Counts([0; 8]),
        diverted: Counts([0; 8]),
        failed: false,
    };
    for place in 0..guard.units().len() {
        let at = usize::from(place);
        let count = counts.0[at];
        if count == 0 {
            continue;
        }
        let unit = place + 1;
        let outcome = carry_out(guard, Ask::Stack { issue, unit, count })?;
        all.moved.0[at] = outcome.moved.0[at];
        all.diverted.0[at] = outcome.diverted.0[at];
        all.failed = outcome.failed;
        if all.failed {
            return Ok(all);
        }
    }
    Ok(all)
}
