//! The customer takes notes from the outlet.

ghost use Rattle.std.specs.Prelude.{◌≡◌, ◌≢◌, IfOk, OnErr, Ok};
ghost use Rattle.xfs_dispenser.specs.Seen.{seen};
ghost use Rattle.xfs_guard.specs.CrashOutcomes.{MayTake};
ghost use Rattle.xfs_guard.specs.Keeps.{Keeps, Proceeds};
ghost use Rattle.xfs_machine.specs.declared.answer.Touched.TheVariants as Touched;
ghost use Rattle.xfs_machine.specs.Answers.{touched_as};
ghost use Rattle.xfs_machine.specs.Changes.{NotesAreTaken};
ghost use Rattle.xfs_model.specs.Guards.{is_shutter_closed};

use crate::answer::Touched;
use xfs_base::{Kind, Memory};
use xfs_disk::Disk;
use xfs_guard::Guard;
use xfs_mech::Mechanism;

/// Whether an order to retract is written and not yet acted.
pub(crate) fn is_shutter_closed<M: Mechanism, D: Disk>(guard: &Guard<M, D>) -> bool
    ensures { result ≡ is_shutter_closed (seen D.Disk guard.now) }
{
    matches!(guard.unacted(), Some(Kind::Retract))
}

/// Takes the notes, where the shutter is open.
pub(crate) fn take_notes<M: Mechanism, D: Disk>(guard: &mut Guard<M, D>) -> Result<Touched, Memory>
    ensures takes { IfOk result (λ t. NotesAreTaken (seen D.Disk guard.old) (seen D.Disk guard.new) (touched_as (Ok t))) }
    ensures memory { OnErr result (guard.new ≡ guard.old) }
    ensures keeps { IfOk result (λ t. t ≢ Touched.Closed → Keeps D.Disk (MayTake guard.old.state) guard.old guard.new) }
    ensures closed { result ≡ Ok Touched.Closed → guard.new ≡ guard.old }
    ensures proceeds { Proceeds D.Disk guard.old guard.new }
{
    if is_shutter_closed(guard) {
        return Ok(Touched::Closed);
    }
    let outcome = guard.taken()?;
    if outcome.failed {
        return Ok(Touched::Fault);
    }
    Ok(Touched::Taken(outcome.moved))
}
