use crate::work::Work;
use std::alloc::Global;
use xfs_base::{Counts, Currency, NoteKind, UnitTable};
use xfs_mix::{MixFault, least};

const MOST: u32 = 1_000_000;

// Values that most amounts have several mixes of, beside the least one of which 60 notes reach MOST.
const DEAR: [u32; 8] = [169, 29, 10, 187, 3, 9, 5, 16_667];

/// The least mix for an amount, or the reason why there is none.
#[derive(Drop)]
pub(crate) struct MixSearch {
    units: UnitTable,
    have: Counts,
    currency: Currency,
    amount: u32,
    notes: Result<u64, MixFault>,
}

impl MixSearch {
    /// EUR 10, 20 and 50 and USD 20 with 100 notes each, and the greatest amount that is there:
    /// every greater one is refused at once.
    pub(crate) fn of_main() -> Option<MixSearch> {
        let (euro, dollar) = (Currency::new(b"EUR")?, Currency::new(b"USD")?);
        let kinds = [(euro, 10), (euro, 20), (euro, 50), (dollar, 20)];
        let kinds = kinds.map(|(currency, value)| NoteKind { currency, value });
        Some(MixSearch {
            units: UnitTable::new(&kinds)?,
            have: Counts([100, 100, 100, 100, 0, 0, 0, 0]),
            currency: euro,
            amount: 8_000,
            notes: Err(MixFault::TooMany),
        })
    }

    /// Eight units of one currency with 10,000 notes each, and EUR 1,000,000.
    pub(crate) fn of_eight() -> Option<MixSearch> {
        let currency = Currency::new(b"EUR")?;
        let kinds = DEAR.map(|value| NoteKind { currency, value });
        Some(MixSearch {
            units: UnitTable::new(&kinds)?,
            have: Counts([10_000; 8]),
            currency,
            amount: MOST,
            notes: Err(MixFault::TooMany),
        })
    }
}

impl Work for MixSearch {
    fn is_right(&self, alloc: Global) -> bool {
        finds(
            alloc,
            &self.units,
            &self.have,
            self.currency,
            self.amount,
            self.notes,
        )
    }
}

fn finds(
    alloc: Global,
    units: &UnitTable,
    have: &Counts,
    currency: Currency,
    amount: u32,
    notes: Result<u64, MixFault>,
) -> bool {
    if amount < 1 || amount > MOST {
        return false;
    }
    let mix = least(alloc, units, have, currency, amount);
    mix.map(|mix| mix.notes()) == notes
}

/// EUR 10, 20 and 50 and USD 20 with 10,000 notes each, and the dearest amounts of both: all that is
/// there, a little less, and where the fewest notes are 60 and 61.
#[derive(Drop)]
pub(crate) struct Filled {
    units: UnitTable,
    euro: Currency,
    dollar: Currency,
}

impl Filled {
    pub(crate) fn new() -> Option<Filled> {
        let (euro, dollar) = (Currency::new(b"EUR")?, Currency::new(b"USD")?);
        let kinds = [(euro, 10), (euro, 20), (euro, 50), (dollar, 20)];
        let kinds = kinds.map(|(currency, value)| NoteKind { currency, value });
        Some(Filled {
            units: UnitTable::new(&kinds)?,
            euro,
            dollar,
        })
    }
}

impl Work for Filled {
    fn is_right(&self, alloc: Global) -> bool {
        let have = Counts([10_000, 10_000, 10_000, 10_000, 0, 0, 0, 0]);
        let mut all = true;
        for (currency, amount, notes) in [
            (self.euro, 1_000_000, Err(MixFault::Nothing)),
            (self.euro, 999_990, Err(MixFault::Nothing)),
            (self.euro, 800_000, Err(MixFault::TooMany)),
            (self.euro, 799_990, Err(MixFault::TooMany)),
            (self.euro, 3_010, Err(MixFault::TooMany)),
            (self.euro, 3_000, Ok(60)),
            (self.dollar, 200_000, Err(MixFault::TooMany)),
            (self.dollar, 1_200, Ok(60)),
        ] {
            all = finds(alloc, &self.units, &have, currency, amount, notes) && all;
        }
        all
    }
}
