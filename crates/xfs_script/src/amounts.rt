ghost use Rattle.std.specs.Prelude.{ℕ, List, IfSome, IfNone};
ghost use Rattle.xfs_script.specs.Fields.{SpellsAmounts};

use crate::word::cut;
use xfs_token::{Amounts, read_amount};

// The amounts that a field has between its commas. None exactly where it isn't one to nine amounts
// of different currencies.
pub(crate) fn read_amounts(text: &[u8]) -> Option<Amounts>
    ensures found { IfSome result (SpellsAmounts text.now) }
    ensures none { IfNone result ((amounts : List (List ℕ × ℕ)) → ¬ SpellsAmounts text.now amounts) }
{
    let (first, mut rest) = cut(text, b',');
    let (currency, amount) = read_amount(first)?;
    let mut amounts = Amounts::one(currency, amount)?;
    while let Some(behind) = rest {
        let (part, further) = cut(behind, b',');
        let (currency, amount) = read_amount(part)?;
        if !amounts.add(currency, amount) {
            return None;
        }
        rest = further;
    }
    Some(amounts)
}
