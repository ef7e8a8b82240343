ghost use Rattle.std.specs.Prelude.{◌≡◌, ◌<◌, ℕ, map, IfOk};
ghost use Rattle.std.specs.Int.{◌∣◌, IsGcd};
ghost use Rattle.xfs_mix.specs.Steps.{AreMultiples, in_steps};

use std::alloc::{AllocError, Global};
use xfs_base::{Currency, NoteKind};

// The greatest common divisor of the currency's values, and 0 where no unit has the currency.
pub(crate) fn step_of(kinds: &[NoteKind], currency: Currency) -> u32
    ensures multiples { AreMultiples result currency kinds.now }
    ensures greatest { (d : ℕ) → AreMultiples d currency kinds.now → d ∣ result }
{
    let mut step = 0;
    for kind in kinds {
        if kind.currency == currency {
            step = greatest_divisor(step, kind.value);
        }
    }
    step
}

// The greatest common divisor of two numbers, by Euclid.
fn greatest_divisor(a: u32, b: u32) -> u32
    ensures { IsGcd a b result }
{
    let (mut divisor, mut rest) = (a, b);
    while rest != 0 {
        (divisor, rest) = (rest, divisor % rest);
    }
    divisor
}

// The kinds of notes, with the currency's values counted in steps.
pub(crate) fn in_steps(
    alloc: Global,
    kinds: &[NoteKind],
    currency: Currency,
    step: u32,
) -> Result<Vec<NoteKind>, AllocError>
    requires { 0 < step }
    ensures { IfOk result (λ ks. ks.items ≡ map (in_steps step currency) kinds.now) }
{
    let mut counted = Vec::with_capacity(alloc, kinds.len())?;
    for kind in kinds {
        counted.push(in_step(*kind, currency, step))?;
    }
    Ok(counted)
}

fn in_step(kind: NoteKind, currency: Currency, step: u32) -> NoteKind
    requires { 0 < step }
    ensures { result ≡ in_steps step currency kind }
{
    if kind.currency != currency {
        return kind;
    }
    NoteKind {
        currency: kind.currency,
        value: kind.value / step,
    }
}
