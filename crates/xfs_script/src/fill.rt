ghost use Rattle.std.specs.Prelude.{◌≡◌, ℕ, IfSome, IfNone};
ghost use Rattle.xfs_script.specs.Guard.{IsFill};

use crate::counts_field::{number_of_unit, read_count};
use crate::word::field_of;

/// The most notes that a line puts into a unit.
const MOST_FILLED: u32 = 10_000;

// The unit and the count of a `fill` line.
pub(crate) fn read_fill(text: &[u8]) -> Option<(u8, u32)>
    ensures found { IfSome result (λ f. IsFill text.now f.0 f.1) }
    ensures none { IfNone result ((unit count : ℕ) → ¬ IsFill text.now unit count) }
{
    let (unit, digits) = number_of_unit(field_of(text, b"fill unit")?, b' ')?;
    let count = read_count(digits)?;
    if count == 0 || count > MOST_FILLED {
        return None;
    }
    Some((unit, count))
}
