ghost use Rattle.std.specs.Prelude.{◌≡◌};

use xfs_base::{Counts, Kind};

/// An order to move notes. It isn't `Clone` and is moved into `execute`: each is carried out once.
#[derive(Debug, Drop)]
pub struct Order {
    number: u64,
    kind: Kind,
    counts: Counts,
}

impl Order {
    ghost use Rattle.std.specs.Prelude.{◌≡◌};
    ghost use Rattle.xfs_mech.specs.Orders.{number_of, kind_of, counts_of};

    /// The number is that of the order's record in the journal.
    pub fn new(number: u64, kind: Kind, counts: Counts) -> Order
        ensures number { number_of result ≡ number }
        ensures kind { kind_of result ≡ kind }
        ensures counts { counts_of result ≡ counts }
    {
        Order {
            number,
            kind,
            counts,
        }
    }

    /// The number of the order's record in the journal.
    pub fn number(&self) -> u64
        ensures { result ≡ number_of self.now }
    {
        self.number
    }

    /// Which places the notes go from and to.
    pub fn kind(&self) -> Kind
        ensures { result ≡ kind_of self.now }
    {
        self.kind
    }

    /// The notes that are asked for, unit by unit.
    pub fn counts(&self) -> Counts
        ensures { result ≡ counts_of self.now }
    {
        self.counts
    }
}
