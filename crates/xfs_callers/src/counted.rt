//! A caller of xfs_journal.

ghost use Rattle.std.specs.Prelude.{◌≡◌, ◌+◌, ◌++◌, ◌∷◌, [], IfErr, IfOk, IfSome, Err, length};
ghost use Rattle.xfs_disk.specs.Moments.{EachImage};
ghost use Rattle.xfs_journal.specs.Image.{StandsFor};
ghost use Rattle.xfs_journal.specs.JournalView.{refusal};
ghost use Rattle.xfs_journal.specs.Outcomes.{IsNotAppended};
ghost use Rattle.xfs_journal.specs.declared.record.Rec.TheVariants.{Clear};

use xfs_disk::Disk;
use xfs_journal::{AppendFault, Journal, Rec};

/// Appends a Clear and answers its number. A crash then leaves the list with it; where it is refused, the list is as
/// before, and a crash leaves that or, after `Disk`, perhaps the list with it.
pub fn append_clear<D: Disk>(journal: &mut Journal<D>) -> Result<u64, AppendFault>
    ensures number { IfOk result (λ number. number ≡ length journal.old.records + 1) }
    ensures records { IfOk result (λ _. journal.new.records ≡ journal.old.records ++ Clear ∷ []) }
    ensures durable { IfOk result (λ _. EachImage D.Disk journal.new.disk (λ bytes. StandsFor bytes journal.new.records)) }
    ensures refused { IfSome (refusal journal.old Clear) (λ f. result ≡ Err f) }
    ensures err { IfErr result (IsNotAppended D.Disk journal.old journal.new Clear) }
{
    journal.append(Rec::Clear)
}
