ghost use Rattle.std.specs.Prelude.{◌≡◌, ◌-◌, ◌≤◌, Some, None, IfSome, IfNone, is_some, drop, find, map};
ghost use Rattle.std.specs.Option.{option_map};
ghost use Rattle.std.specs.List.{list_any};
ghost use Rattle.std.specs.Str.{bytes_eq};
ghost use Rattle.xfs_token.specs.Amounts as money;
ghost use Rattle.xfs_token.specs.Amounts.{amounts_of, dispense_key, dispense_values};
ghost use Rattle.xfs_token.specs.Pairs.{pair_of};

use crate::pair::Pair;
use crate::{Amounts, Token, read_amount};

/// The amounts under a token's dispense keys, in the order of the keys' numbers. None exactly where
/// the dispense keys are not those from 1 to some number without a gap, a value is no amount's text,
/// or two have one currency.
pub fn amounts(token: &Token) -> Option<Amounts>
    ensures found { IfSome result (λ a. amounts_of token.now ≡ Some a) }
    ensures none { IfNone result (amounts_of token.now ≡ None) }
{
    let pairs = token.pairs();
    let (currency, amount) = read_amount(value_of(pairs, 1)?)?;
    let mut amounts = Amounts::one(currency, amount)?;
    for number in 2..10 {
        let Some(text) = value_of(pairs, number) else {
            return if any_from(pairs, number + 1) {
                None
            } else {
                Some(amounts)
            };
        };
        let (currency, amount) = read_amount(text)?;
        if !amounts.add(currency, amount) {
            return None;
        }
    }
    Some(amounts)
}

// Whether a dispense key of this number or of a greater one is there.
fn any_from(pairs: &[Pair], first: u8) -> bool
    requires low { 1 ≤ first }
    requires high { first ≤ 10 }
    ensures { result ≡ list_any is_some (drop (first - 1) (dispense_values (map pair_of pairs.now))) }
{
    for number in first..10 {
        if value_of(pairs, number).is_some() {
            return true;
        }
    }
    false
}

// What stands under the dispense key of a number.
fn value_of(pairs: &[Pair], number: u8) -> Option<&[u8]>
    requires { number ≤ 9 }
    ensures { option_map (λ v. v.now) result ≡ money.value_under (dispense_key number) (map pair_of pairs.now) }
{
    let mut key = *b"DISPENSE0";
    key[8] += number;
    value_under(pairs, &key)
}

fn value_under<'a>(pairs: &'a [Pair], key: &[u8]) -> Option<&'a [u8]>
    ensures { option_map (λ v. v.now) result ≡ money.value_under key.now (map pair_of pairs.now) }
{
    match with_key(pairs, key) {
        Some(p) => Some(&p.value),
        None => None,
    }
}

fn with_key<'a>(pairs: &'a [Pair], key: &[u8]) -> Option<&'a Pair>
    ensures { option_map (λ p. p.now) result ≡ find (λ p. bytes_eq p.key.items key.now) pairs.now }
{
    pairs.iter().find(|p| p.key.as_slice() == key)
}
