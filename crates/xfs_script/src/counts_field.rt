ghost use Rattle.std.specs.Prelude.{◌≡◌, ◌+◌, ◌≤◌, ◌∷◌, List, ℕ, length, get_or, true, false, IfSome, IfNone};
ghost use Rattle.xfs_base.specs.declared.counts.Counts as logic;
ghost use Rattle.xfs_script.specs.Counts.{IsCount, IsUnit, SpellsCounts};

use crate::word::{cut, field_of};
use xfs_base::Counts;
use xfs_token::read_digits;

/// The most notes that a line asks of one unit.
const MOST_NOTES: u64 = 1_000_000;

// The counts that a field has between its commas. None exactly where it isn't units with their
// counts, the units rising.
pub(crate) fn read_counts(text: &[u8]) -> Option<Counts>
    ensures found { IfSome result (SpellsCounts text.now) }
    ensures none { IfNone result ((counts : logic.Counts) → ¬ SpellsCounts text.now counts) }
{
    let mut counts = [0u32; 8];
    let mut last = 0u8;
    let mut rest = Some(text);
    while let Some(behind) = rest {
        let (part, further) = cut(behind, b',');
        let (unit, count) = read_unit(part)?;
        if unit <= last {
            return None;
        }
        counts[usize::from(unit - 1)] = count;
        last = unit;
        rest = further;
    }
    Some(Counts(counts))
}

// A unit and its count.
fn read_unit(part: &[u8]) -> Option<(u8, u32)>
    ensures found { IfSome result (λ u. IsUnit part.now u.0 u.1) }
    ensures none { IfNone result ((unit count : ℕ) → ¬ IsUnit part.now unit count) }
{
    let (unit, digits) = number_of_unit(field_of(part, b"unit")?, b':')?;
    let count = read_count(digits)?;
    Some((unit, count))
}

// The number of a unit, and what stands behind the byte that follows it.
pub(crate) fn number_of_unit(field: &[u8], mark: u8) -> Option<(u8, &[u8])>
    ensures found { IfSome result (λ u. field.now ≡ (48 + u.0) ∷ mark ∷ u.1.now) }
    ensures within { IfSome result (λ u. (1 ≤ u.0) × (u.0 ≤ 8)) }
    ensures none { IfNone result ((unit : ℕ) (digits : List ℕ) → 1 ≤ unit → unit ≤ 8 → ¬ (field.now ≡ (48 + unit) ∷ mark ∷ digits)) }
{
    match field {
        [digit, byte, digits @ ..] if *byte == mark && *digit >= b'1' && *digit <= b'8' => {
            Some((*digit - b'0', digits))
        }
        _ => None,
    }
}

pub(crate) fn read_count(digits: &[u8]) -> Option<u32>
    ensures found { IfSome result (IsCount digits.now) }
    ensures none { IfNone result ((count : ℕ) → ¬ IsCount digits.now count) }
{
    if !has_number_form(digits) {
        return None;
    }
    let count = read_digits(digits)?;
    if count > MOST_NOTES {
        return None;
    }
    Some(count as u32)
}

// One to seven bytes, the first of them 0 only where it is alone.
fn has_number_form(digits: &[u8]) -> bool
    ensures length { result ≡ true → (1 ≤ length digits.now) × (length digits.now ≤ 7) }
    ensures leading { result ≡ true → get_or digits.now 0 0 ≡ 48 → length digits.now ≡ 1 }
    ensures other { result ≡ false → (count : ℕ) → ¬ IsCount digits.now count }
{
    match digits {
        [] => false,
        [_] => true,
        [first, ..] => *first != b'0' && digits.len() <= 7,
    }
}
