//! The grant to stack notes: the checks of a dispense from the guard's fit on, in their order.

ghost use Rattle.std.specs.Prelude.{◌≡◌, ◌≢◌, Err, IfErr, None};
ghost use Rattle.xfs_guard.specs.Keeps.{Keeps, NoEntry};
ghost use Rattle.xfs_guard.specs.declared.open.Open.TheVariants.{No};
ghost use Rattle.xfs_guard.specs.declared.deny.Deny.TheVariants.{Disk};
ghost use Rattle.xfs_dispenser.specs.Checks.{IsGrant, token_text};
ghost use Rattle.xfs_dispenser.specs.Denominations.{members_refusal};
ghost use Rattle.xfs_dispenser.specs.Seen.{seen};
ghost use Rattle.xfs_dispenser.specs.declared.refusal.Refusal.TheVariants as Refusal;

use crate::denominate::notes_given;
use crate::notes::Notes;
use crate::refusal::Refusal;
use std::alloc::Global;
use xfs_base::Counts;
use xfs_disk::Disk;
use xfs_guard::Guard;
use xfs_mech::Mechanism;

/// The grant to stack these notes for the nonce of this issue number.
#[derive(Clone, Copy, Debug, PartialEq, Eq)]
pub struct Grant {
    pub issue: u64,
    pub counts: Counts,
}

/// The grant to stack the notes of a denomination on a token, which is then bound to the live nonce.
/// After a refusal as `Disk` the journal is shut; every other refusal changes nothing.
pub fn grant_to_stack<M: Mechanism, D: Disk>(
    alloc: Global,
    guard: &mut Guard<M, D>,
    notes: &Notes,
    token: Option<&[u8]>,
) -> Result<Grant, Refusal>
    requires none { guard.old.state.open_order ≡ No }
    requires members { members_refusal notes.now ≡ None }
    ensures grant { result ≢ Err Refusal.Memory → IsGrant (seen D.Disk guard.old) notes.now (token_text token.entry) result (seen D.Disk guard.new) }
    ensures same { IfErr result (λ r. r ≢ Refusal.Deny Disk → guard.new ≡ guard.old) }
    ensures none { guard.new.state.open_order ≡ No }
    ensures keeps { Keeps D.Disk NoEntry guard.old guard.new }
{
    if let Some(deny) = guard.unfit() {
        return Err(Refusal::from(deny));
    }
    let Some(token) = token else {
        return Err(Refusal::NoToken);
    };
    let claim = guard.check(token)?;
    let counts = notes_given(alloc, guard.units(), &guard.places().units, notes)?;
    let permit = guard.allow(claim, &counts)?;
    Ok(Grant {
        issue: permit.issue,
        counts,
    })
}
