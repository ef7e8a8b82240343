//! Which amounts counts of notes make up, however many notes they are.

ghost use Rattle.std.specs.Prelude.{◌≡◌, ◌≤◌, ◌<◌, ◌-◌, ℕ, IfOk, length, Some, None, ◌∷◌, replicate};
ghost use Rattle.xfs_base.specs.Counts.{at};
ghost use Rattle.xfs_mix.specs.Mix.{AreNoteKinds, IsUnitOf, IsRaised, none_yet, usable};
ghost use Rattle.xfs_mix.specs.Reach.{IsReached, IsReachTable, least_use};

use std::alloc::{AllocError, Global};
use xfs_base::{Counts, Currency, NoteKind};

// Whether there are counts for the amount. The table tells of each amount up to it whether counts of
// the notes allowed so far make it up.
pub(crate) fn is_reached(
    alloc: Global,
    kinds: &[NoteKind],
    have: &Counts,
    currency: Currency,
    amount: u32,
) -> Result<bool, AllocError>
    requires kinds { AreNoteKinds kinds.now }
    requires amount { amount ≤ 1000000 }
    ensures { IfOk result (IsReached kinds.now have.now currency amount) }
{
    let mut used = first_used(alloc, kinds, currency, amount as usize + 1)?;
    let limits = use_all(&mut used, kinds, currency, have);
    Ok(reached_at(&used, kinds, currency, have, &limits, amount as usize))
}

#[tactic(auto, using(crate::proofs::ReachLaws::reached_is))]
fn reached_at(
    used: &[Option<u32>],
    kinds: &[NoteKind],
    currency: Currency,
    have: &Counts,
    limits: &Counts,
    amount: usize,
) -> bool
    requires amount { amount < length used.now }
    requires table { IsReachTable kinds.now limits.now currency used.now }
    requires limits { (u : ℕ) → at limits.now u ≡ usable kinds.now have.now currency u }
    ensures { IsReached kinds.now have.now currency amount result }
{
    used[amount].is_some()
}

// Allows all the notes of the currency.
fn use_all(
    used: &mut [Option<u32>],
    kinds: &[NoteKind],
    currency: Currency,
    have: &Counts,
) -> Counts
    requires kinds { AreNoteKinds kinds.now }
    requires table { IsReachTable kinds.now none_yet currency used.old }
    ensures table { IsReachTable kinds.now result currency used.new }
    ensures same { length used.new ≡ length used.old }
    ensures limits { (u : ℕ) → at result u ≡ usable kinds.now have.now currency u }
{
    let mut limits = Counts([0; 8]);
    for (u, kind) in kinds.iter().enumerate() {
        if kind.currency == currency {
            use_unit(used, kinds, currency, &mut limits, u, have.0[u]);
        }
    }
    limits
}

// Allows the notes of the unit at a place. An amount that is made up without them needs none; any
// other needs one more than the amount without one note, where there are as many.
fn use_unit(
    used: &mut [Option<u32>],
    kinds: &[NoteKind],
    currency: Currency,
    limits: &mut Counts,
    u: usize,
    count: u32,
)
    requires unit { IsUnitOf currency kinds.now limits.old u }
    requires none { at limits.old u ≡ 0 }
    requires table { IsReachTable kinds.now limits.old currency used.old }
    ensures table { IsReachTable kinds.now limits.new currency used.new }
    ensures same { length used.new ≡ length used.old }
    ensures limits { IsRaised u count limits.old.0 limits.new.0 }
    ensures eight { length limits.new.0 ≡ 8 }
{
    let value = kinds[u].value as usize;
    for a in 0..used.len() {
        let one_less = if a < value { None } else { used[a - value] };
        used[a] = least_use(used[a], one_less, count);
    }
    limits.0[u] += count;
}

// How few notes of a unit an amount needs, of a count that is there.
fn least_use(without: Option<u32>, one_less: Option<u32>, count: u32) -> Option<u32>
    ensures { result ≡ least_use count without one_less }
{
    match (without, one_less) {
        (Some(_), _) => Some(0),
        (None, Some(notes)) if notes < count => Some(notes + 1),
        _ => None,
    }
}

// With no notes allowed there is only the amount 0.
#[tactic(auto, using(crate::proofs::ReachLaws::used_first))]
fn first_used(
    alloc: Global,
    kinds: &[NoteKind],
    currency: Currency,
    len: usize,
) -> Result<Vec<Option<u32>>, AllocError>
    requires { 0 < len }
    ensures table { IfOk result (λ t. IsReachTable kinds.now none_yet currency t.items) }
    ensures len { IfOk result (λ t. length t.items ≡ len) }
{
    only_first(alloc, 0, len)
}

/// A table that has something at its first place alone.
pub(crate) fn only_first<T: Copy>(
    alloc: Global,
    first: T,
    len: usize,
) -> Result<Vec<Option<T>>, AllocError>
    requires { 0 < len }
    ensures { IfOk result (λ t. t.items ≡ Some first ∷ replicate (len - 1) None) }
{
    let mut table = Vec::with_capacity(alloc, len)?;
    table.push(Some(first))?;
    table.resize(len, None)?;
    Ok(table)
}
