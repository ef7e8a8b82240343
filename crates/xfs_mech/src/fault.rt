ghost use Rattle.std.specs.Prelude.{◌≡◌, is_some, IfSome, true, false};
ghost use Rattle.xfs_base.specs.Counts.{IsZero};
ghost use Rattle.xfs_mech.specs.Faults.{fault_at, StopsAt};
ghost use Rattle.xfs_mech.specs.Mechanism.{MayCarry};

use crate::Outcome;
use crate::counts::{front, minus};
use xfs_base::{Counts, Kind};

/// A fault of a mechanism in memory. Its calls of `execute`, `taken` and `load` are counted
/// together from 1; the named call fails. An order then moves its first `moved` notes, lower
/// units first, and diverts the next `diverted` where it stacks; a report moves nothing.
#[derive(Clone, Copy, Debug, PartialEq, Eq)]
pub struct Fault {
    pub call: u64,
    pub moved: u32,
    pub diverted: u32,
}

// The fault that a call is named in.
pub(crate) fn fault_of(faults: &[Fault], call: u64) -> Option<Fault>
    ensures { result ≡ fault_at faults.now call }
{
    faults.iter().copied().find(|fault| fault.call == call)
}

// What the fault leaves of an order.
fn stop_at(fault: Fault, kind: Kind, counts: &Counts) -> Outcome
    ensures carried { MayCarry kind counts.now result.moved result.diverted result.failed }
    ensures failed { result.failed ≡ true }
    ensures stopped { StopsAt fault kind counts.now result.moved result.diverted }
{
    let moved = front(counts, u64::from(fault.moved));
    let diverted = if kind == Kind::Stack {
        let both = front(counts, u64::from(fault.moved) + u64::from(fault.diverted));
        minus(&both, &moved)
    } else {
        Counts([0; 8])
    };
    Outcome {
        moved,
        diverted,
        failed: true,
    }
}

// What an order does: all that it says, or what the fault leaves of it.
pub(crate) fn outcome_of(fault: Option<Fault>, kind: Kind, counts: &Counts) -> Outcome
    ensures carried { MayCarry kind counts.now result.moved result.diverted result.failed }
    ensures failed { result.failed ≡ is_some fault }
    ensures stopped { IfSome fault (λ f. StopsAt f kind counts.now result.moved result.diverted) }
{
    match fault {
        Some(fault) => stop_at(fault, kind, counts),
        None => Outcome {
            moved: *counts,
            diverted: Counts([0; 8]),
            failed: false,
        },
    }
}

// What a report that doesn't fail did.
pub(crate) fn done(moved: Counts) -> Outcome
    ensures moved { result.moved ≡ moved }
    ensures diverted { IsZero result.diverted }
    ensures failed { result.failed ≡ false }
{
    Outcome {
        moved,
        diverted: Counts([0; 8]),
        failed: false,
    }
}

// What a report that fails did.
pub(crate) fn nothing() -> Outcome
    ensures moved { IsZero result.moved }
    ensures diverted { IsZero result.diverted }
    ensures failed { result.failed ≡ true }
{
    Outcome {
        moved: Counts([0; 8]),
        diverted: Counts([0; 8]),
        failed: true,
    }
}
