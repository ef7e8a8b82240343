ghost use Rattle.std.specs.Prelude.{◌≡◌, ◌<◌, ◌^◌, sum};
ghost use Rattle.xfs_base.specs.Money.{value};

use crate::Currency;
use crate::money::{UnitTable, value_of};

/// What an order moves: from unit to transport, from transport to outlet, from transport to
/// rejected, from outlet to retracted.
#[derive(Clone, Copy, Debug, PartialEq, Eq)]
pub enum Kind {
    Stack,
    Present,
    Reject,
    Retract,
}

/// How many notes of each unit, from the first unit on.
#[derive(Clone, Copy, Debug, PartialEq, Eq)]
pub struct Counts(pub [u32; 8]);

/// The six places of notes, each by the unit that they came from.
#[derive(Clone, Copy, Debug, PartialEq, Eq)]
pub struct Places {
    pub units: Counts,
    pub transport: Counts,
    pub outlet: Counts,
    pub taken: Counts,
    pub retracted: Counts,
    pub rejected: Counts,
}

impl Counts {
    /// How many notes there are.
    pub fn notes(&self) -> u64
        ensures { result ≡ sum self.now.0 }
    {
        let mut total = 0u64;
        for count in &self.0 {
            total += u64::from(*count);
        }
        total
    }

    /// What the notes are worth in a currency, in thousandths of its unit.
    pub fn value(&self, units: &UnitTable, currency: Currency) -> u128
        ensures value { result ≡ value units.now self.now currency }
        ensures small { result < 2 ^ 65 }
    {
        value_of(units.kinds(), &self.0, currency)
    }
}
