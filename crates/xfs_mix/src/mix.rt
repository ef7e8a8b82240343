ghost use Rattle.std.specs.Prelude.{◌≡◌, ◌≤◌, ◌<◌, ◌+◌, ◌*◌, ◌^◌, ℕ, IsTrue, IfOk, IfSome, IfErr, Ok, Err, length, sum, All, Some, map, min};
ghost use Rattle.xfs_base.specs.Counts.{at};
ghost use Rattle.xfs_mix.specs.Mix.{AreNoteKinds, IsUnitOf, IsMix, IsLeast, IsTable, IsRaised, better_of, none_yet, usable, IsBestMix, IsAnswer, IsBestOfSixty, AreAtMost, without_many};
ghost use Rattle.xfs_base.specs.declared.counts.Counts.{Counts};
ghost use Rattle.xfs_mix.specs.declared.mix.MixFault.TheVariants.{Nothing, TooMany, Memory};
ghost use Rattle.xfs_base.specs.Values.{IsNoteValue};

use crate::reach::{is_reached, only_first};
use crate::steps::{in_steps, step_of};
use std::alloc::{AllocError, Global};
use thiserror::Error;
use xfs_base::{Counts, Currency, NoteKind, UnitTable};

/// Why there is no mix.
#[derive(Clone, Copy, Debug, PartialEq, Eq, Error)]
pub enum MixFault {
    /// No counts of what is there are worth the amount.
    #[error("no notes make up the amount")]
    Nothing,
    /// There are such counts, and each has more than 60 notes.
    #[error("the amount takes more than 60 notes")]
    TooMany,
    #[error("out of memory")]
    Memory,
}

impl From<AllocError> for MixFault {
    ghost use Rattle.std.specs.Prelude.{◌≡◌};
    ghost use Rattle.xfs_mix.specs.declared.mix.MixFault.TheVariants.{Memory};

    ghost from_gives = { λ _ fault. fault ≡ Memory };

    fn from(_error: AllocError) -> MixFault {
        MixFault::Memory
    }
}

/// The fewest notes of a currency, of those that are there, for an amount in its whole units. Among
/// several the choice is free.
///
/// The cost: amounts are counted in steps of the greatest common divisor of the currency's values.
/// Mixes are searched for only where 60 of the currency's greatest notes are worth the amount, in a
/// table of 36 bytes an amount, with at most six passes a unit. Else, or where none is found, one pass
/// a unit over a table of 8 bytes an amount tells whether there are more notes that make it up. So
/// an amount of 1,000,000 in notes of 10, 20 and 50 takes 0.8 MB; it takes 36 MB at most. An amount
/// past all that is there, or between two steps, is refused before.
#[tactic(auto, using(crate::proofs::First::no_mix_past))]
pub fn least(
    alloc: Global,
    units: &UnitTable,
    have: &Counts,
    currency: Currency,
    amount: u32,
) -> Result<Counts, MixFault>
    requires { (1 ≤ amount) × (amount ≤ 1000000) }
    ensures mix { IfOk result (λ n. IsMix units.now have.now currency amount n) }
    ensures least { IfOk result (λ n. IsLeast units.now have.now currency amount n) }
    ensures notes { IfOk result (λ n. sum n.0 ≤ 60) }
    ensures nothing { result ≡ Err Nothing → (n : Counts) → IsMix units.now have.now currency amount n → ⊥ }
    ensures some { result ≡ Err TooMany → (n : Counts) × IsMix units.now have.now currency amount n }
    ensures too_many { result ≡ Err TooMany → (n : Counts) → IsMix units.now have.now currency amount n → 60 < sum n.0 }
{
    if have.value(units, currency) < 1000 * u128::from(amount) {
        return Err(MixFault::Nothing);
    }
    least_of(alloc, units.kinds(), have, currency, amount)
}

fn least_of(
    alloc: Global,
    kinds: &[NoteKind],
    have: &Counts,
    currency: Currency,
    amount: u32,
) -> Result<Counts, MixFault>
    requires kinds { AreNoteKinds kinds.now }
    requires amount { (1 ≤ amount) × (amount ≤ 1000000) }
    ensures { IsAnswer kinds.now have.now currency amount result }
{
    let step = step_of(kinds, currency);
    if step == 0 || amount % step != 0 {
        return Err(MixFault::Nothing);
    }
    let kinds = in_steps(alloc, kinds, currency, step)?;
    least_in_steps(alloc, &kinds, have, currency, amount / step)
}

fn least_in_steps(
    alloc: Global,
    kinds: &[NoteKind],
    have: &Counts,
    currency: Currency,
    amount: u32,
) -> Result<Counts, MixFault>
    requires kinds { AreNoteKinds kinds.now }
    requires amount { amount ≤ 1000000 }
    ensures { IsAnswer kinds.now have.now currency amount result }
{
    if let Some(mix) = least_of_sixty(alloc, kinds, have, currency, amount)? {
        return Ok(mix);
    }
    if is_reached(alloc, kinds, have, currency, amount)? {
        Err(MixFault::TooMany)
    } else {
        Err(MixFault::Nothing)
    }
}

// The least mix, where it has at most 60 notes.
fn least_of_sixty(
    alloc: Global,
    kinds: &[NoteKind],
    have: &Counts,
    currency: Currency,
    amount: u32,
) -> Result<Option<Counts>, AllocError>
    requires kinds { AreNoteKinds kinds.now }
    requires amount { amount ≤ 1000000 }
    ensures { IfOk result (IsBestOfSixty kinds.now have.now currency amount) }
{
    if amount > 60 * greatest_value(kinds, currency) {
        return Ok(None);
    }
    let mix = best(alloc, kinds, &at_most_sixty(have), currency, amount)?;
    Ok(without_many(mix))
}

fn without_many(mix: Option<Counts>) -> Option<Counts>
    ensures { result ≡ without_many mix }
{
    match mix {
        Some(mix) if mix.notes() > 60 => None,
        other => other,
    }
}

fn greatest_value(kinds: &[NoteKind], currency: Currency) -> u32
    requires { All (λ k. IsNoteValue k.value) kinds.now }
    ensures all { AreAtMost result currency kinds.now }
    ensures bound { result ≤ 1000000 }
{
    let mut greatest = 0;
    for kind in kinds {
        if kind.currency == currency && kind.value > greatest {
            greatest = kind.value;
        }
    }
    greatest
}

fn at_most_sixty(have: &Counts) -> Counts
    ensures { result.0 ≡ map (λ n. min n 60) have.now.0 }
{
    Counts(have.0.map(|count| count.min(60)))
}

// The best counts for the amount, by a table of all amounts up to it.
fn best(
    alloc: Global,
    kinds: &[NoteKind],
    have: &Counts,
    currency: Currency,
    amount: u32,
) -> Result<Option<Counts>, AllocError>
    requires kinds { AreNoteKinds kinds.now }
    requires amount { amount ≤ 1000000 }
    ensures { IfOk result (IsBestMix kinds.now have.now currency amount) }
{
    let mut table = first_table(alloc, kinds, currency, amount as usize + 1)?;
    let limits = add_all(&mut table, kinds, currency, have);
    Ok(best_at(&table, kinds, currency, have, &limits, amount as usize))
}

#[tactic(auto, using(crate::proofs::First::best_is_mix))]
fn best_at(
    table: &[Option<Counts>],
    kinds: &[NoteKind],
    currency: Currency,
    have: &Counts,
    limits: &Counts,
    amount: usize,
) -> Option<Counts>
    requires amount { amount < length table.now }
    requires table { IsTable kinds.now limits.now currency table.now }
    requires limits { (u : ℕ) → at limits.now u ≡ usable kinds.now have.now currency u }
    ensures { IsBestMix kinds.now have.now currency amount result }
{
    table[amount]
}

// The better of what is there, and of another with n more of a unit.
fn better(here: Option<Counts>, other: Option<Counts>, u: usize, n: u32) -> Option<Counts>
    requires unit { u < 8 }
    requires fits { IfSome other (λ q. at q u + n < 2 ^ 32) }
    ensures { result ≡ better_of u n here other }
{
    let Some(mut new) = other else {
        return here;
    };
    new.0[u] += n;
    match here {
        Some(old) if old.notes() <= new.notes() => Some(old),
        _ => Some(new),
    }
}

// Allows n notes more of the unit at a place: at most one more than all that were allowed of it.
fn add_notes(
    table: &mut [Option<Counts>],
    kinds: &[NoteKind],
    currency: Currency,
    limits: &mut Counts,
    u: usize,
    n: u32,
)
    requires unit { IsUnitOf currency kinds.now limits.old u }
    requires notes { (0 < n) × (n ≤ at limits.old u + 1) × (at limits.old u + n < 2 ^ 32) }
    requires table { IsTable kinds.now limits.old currency table.old }
    ensures table { IsTable kinds.now limits.new currency table.new }
    ensures same { length table.new ≡ length table.old }
    ensures limits { IsRaised u n limits.old.0 limits.new.0 }
    ensures eight { length limits.new.0 ≡ 8 }
{
    let worth = n as usize * kinds[u].value as usize;
    let mut a = table.len();
    while a > worth {
        a -= 1;
        table[a] = better(table[a], table[a - worth], u, n);
    }
    limits.0[u] += n;
}

// Allows all the notes of the unit at a place, in steps that double.
fn add_unit(
    table: &mut [Option<Counts>],
    kinds: &[NoteKind],
    currency: Currency,
    limits: &mut Counts,
    u: usize,
    count: u32,
)
    requires unit { IsUnitOf currency kinds.now limits.old u }
    requires none { at limits.old u ≡ 0 }
    requires table { IsTable kinds.now limits.old currency table.old }
    ensures table { IsTable kinds.now limits.new currency table.new }
    ensures same { length table.new ≡ length table.old }
    ensures limits { IsRaised u count limits.old.0 limits.new.0 }
    ensures eight { length limits.new.0 ≡ 8 }
{
    while limits.0[u] < count {
        let n = (limits.0[u] + 1).min(count - limits.0[u]);
        add_notes(table, kinds, currency, limits, u, n);
    }
}

// Allows all the notes of the currency.
fn add_all(
    table: &mut [Option<Counts>],
    kinds: &[NoteKind],
    currency: Currency,
    have: &Counts,
) -> Counts
    requires kinds { AreNoteKinds kinds.now }
    requires table { IsTable kinds.now none_yet currency table.old }
    ensures table { IsTable kinds.now result currency table.new }
    ensures same { length table.new ≡ length table.old }
    ensures limits { (u : ℕ) → at result u ≡ usable kinds.now have.now currency u }
{
    let mut limits = Counts([0; 8]);
    for (u, kind) in kinds.iter().enumerate() {
        if kind.currency == currency {
            add_unit(table, kinds, currency, &mut limits, u, have.0[u]);
        }
    }
    limits
}

// With no notes allowed there is only the amount 0.
fn first_table(
    alloc: Global,
    kinds: &[NoteKind],
    currency: Currency,
    len: usize,
) -> Result<Vec<Option<Counts>>, AllocError>
    requires { 0 < len }
    ensures table { IfOk result (λ t. IsTable kinds.now none_yet currency t.items) }
    ensures len { IfOk result (λ t. length t.items ≡ len) }
{
    only_first(alloc, Counts([0; 8]), len)
}
