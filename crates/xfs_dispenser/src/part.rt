use xfs_guard::Ask;

/// One part of a plan: one call of the guard, and for an order the two that carry it out and write
/// down what it did.
#[derive(Clone, Copy, Debug, PartialEq, Eq)]
pub enum Part {
    /// An order is written.
    Order(Ask),
    /// The journal is read again and gets a boot record.
    Restore,
    /// So many notes, which the operator added, are loaded into a unit, which counts from 1.
    Load { unit: u8, count: u32 },
    /// A loading of so many notes into a unit is written down.
    Note { unit: u8, count: u32 },
}

impl Default for Part {
    fn default() -> Self {
        Part::Restore
    }
}
