ghost use Rattle.std.specs.Prelude.{◌≡◌, IfOk};
ghost use Rattle.xfs_load.specs.Summaries.{summary_line, summary_of};

use crate::presented::presented_euros;
use itoa::Buffer;
use std::alloc::{AllocError, Global};
use xfs_base::UnitTable;
use xfs_journal::Rec;

/// What came of a load.
#[derive(Clone, Copy, Debug, PartialEq, Eq)]
pub struct Summary {
    /// The rounds that were played.
    pub rounds: u32,
    /// What the Done records behind orders to present say was put out, in whole EUR.
    pub presented: u128,
    /// The rounds of which a completion was no success.
    pub refused: u32,
    /// The records that were written, the boot record among them.
    pub records: u64,
}

impl Summary {
    // The summary of rounds that wrote these records.
    pub(crate) fn of(rounds: u32, refused: u32, units: &UnitTable, written: &[Rec]) -> Summary
        ensures { result ≡ summary_of rounds refused units.now written.now }
    {
        Summary {
            rounds,
            presented: presented_euros(units, written) / 1000,
            refused,
            records: written.len() as u64,
        }
    }

    /// The line that tells it, without a line feed.
    pub fn line(&self, alloc: Global) -> Result<Vec<u8>, AllocError>
        ensures { IfOk result (λ line. line.items ≡ summary_line self.now) }
    {
        let mut line = Vec::new(alloc);
        line.extend_from_slice(b"rounds ")?;
        line.extend_from_slice(Buffer::new().format(self.rounds).as_bytes())?;
        line.extend_from_slice(b" presented EUR ")?;
        line.extend_from_slice(Buffer::new().format(self.presented).as_bytes())?;
        line.extend_from_slice(b" refused ")?;
        line.extend_from_slice(Buffer::new().format(self.refused).as_bytes())?;
        line.extend_from_slice(b" records ")?;
        line.extend_from_slice(Buffer::new().format(self.records).as_bytes())?;
        Ok(line)
    }
}
