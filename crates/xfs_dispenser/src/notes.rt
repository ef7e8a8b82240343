ghost use Rattle.std.specs.Prelude.{◌≡◌};
ghost use Rattle.serde_json.specs.View.{view, members_view};
ghost use Rattle.xfs_dispenser.specs.Notes.{least_of, currency_of, least_in, individual_in, notes_by, notes_in, only_amount};

use crate::named::{Named, read_values};
use serde_json::Value;
use xfs_base::Currency;
use xfs_json::{Map, object, words};

/// The notes that a denomination asks for, by its mix.
#[derive(Clone, Copy, Debug, PartialEq, Eq)]
pub enum Notes {
    /// The mix `minimum`: an amount from 1 to 1,000,000, in whole units of the currency, in the
    /// fewest notes.
    Least { currency: Currency, amount: u32 },
    /// The mix `individual`: counts of the units, each from 0 to 1,000,000.
    Individual(Named),
}

// The members `mix` and `denomination` of a payload. None where one has another shape. The members
// of the other mix are not looked at.
pub(crate) fn read_notes(payload: &Value) -> Option<Notes>
    ensures { result ≡ notes_in (view payload.now) }
{
    let Ok(Some(mix)) = words(payload, "mix") else {
        return None;
    };
    match payload.get("denomination") {
        Some(denomination) if denomination.is_object() => read_mix(mix, denomination),
        _ => None,
    }
}

fn read_mix(mix: &str, denomination: &Value) -> Option<Notes>
    ensures { result ≡ notes_by mix.now (view denomination.now) }
{
    match mix {
        "minimum" => read_least(denomination),
        "individual" => read_individual(denomination),
        _ => None,
    }
}

fn read_individual(denomination: &Value) -> Option<Notes>
    ensures { result ≡ individual_in (view denomination.now) }
{
    Some(Notes::Individual(read_values(denomination)?))
}

fn read_least(denomination: &Value) -> Option<Notes>
    ensures { result ≡ least_in (view denomination.now) }
{
    match object(denomination, "currencies") {
        Ok(Some(currencies)) => read_only(currencies),
        _ => None,
    }
}

// The one member of `currencies`.
fn read_only(currencies: &Map) -> Option<Notes>
    ensures { result ≡ only_amount (members_view currencies.now.entries) }
{
    let mut members = currencies.iter();
    match (members.next(), members.next()) {
        (Some((letters, amount)), None) => read_amount(letters, amount),
        _ => None,
    }
}

fn read_amount(letters: &str, amount: &Value) -> Option<Notes>
    ensures { result ≡ least_of letters.now (view amount.now) }
{
    let currency = read_currency(letters)?;
    match amount.as_u64() {
        Some(amount) if 1 <= amount && amount <= 1_000_000 => Some(Notes::Least {
            currency,
            amount: amount as u32,
        }),
        _ => None,
    }
}

fn read_currency(letters: &str) -> Option<Currency>
    ensures { result ≡ currency_of letters.now }
{
    Currency::new(letters.as_bytes())
}
