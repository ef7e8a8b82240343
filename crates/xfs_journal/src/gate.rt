//! Writing behind a closed gate byte, and then opening it.
ghost use Rattle.std.specs.Prelude.{◌≡◌, List, ℕ, ◌+◌, ◌<◌, ◌≤◌, ◌^◌, [], ◌∷◌, ◌++◌, true, false, Some, None, option_map, length, take, IsErr, OnOk};
ghost use Rattle.std.specs.declared.option.Option.{Option};
ghost use Rattle.xfs_base.specs.Causes.{IfTold};
ghost use Rattle.xfs_disk.specs.Disk.{overlaid, Torn, ImagesFollow, Only};
ghost use Rattle.xfs_disk.specs.Moments.{LeavesOnly, EachImage};
ghost use Rattle.xfs_journal.specs.Image.{IsRecord, end_of, framed, StandsFor};
ghost use Rattle.xfs_journal.specs.JournalView.{HasVersion, IsKept, IsInDoubt};
ghost use Rattle.xfs_journal.specs.Outcomes.{DiskMayFail, WritesAtMost};
ghost use Rattle.xfs_journal.specs.Gate.{HasOpened, IsClosed, IsEitherOf, MayBecome};

use crate::Rec;
use crate::recent::Recent;
use xfs_base::Failed;
use xfs_disk::Disk;

// Writes, and syncs what was written.
pub(crate) fn write_synced<D: Disk>(disk: &mut D, at: u64, bytes: &[u8]) -> Result<(), Failed>
    requires within { IfTold (D.held disk.old) (λ all. at ≤ length all) }
    ensures written { OnOk result (D.held disk.new ≡ option_map (λ all. overlaid all at bytes.now) (D.held disk.old)) }
    ensures durable { OnOk result (IfTold (D.held disk.new) (λ all. Only all (D.images disk.new))) }
    ensures crash { ImagesFollow (Torn at (length bytes.now)) (D.images disk.old) (D.images disk.new) }
    ensures any_moment { LeavesOnly D.Disk disk.old disk.new (MayBecome (D.images disk.old) at (length bytes.now)) }
    ensures tries { DiskMayFail D.Disk disk.old disk.new (IsErr result) }
{
    disk.write_at(at, bytes)?;
    disk.sync()
}

// Writes the bytes behind the gate, and opens it when they are synced.
pub(crate) fn write_behind<D: Disk>(disk: &mut D, gate: u64, bytes: &[u8]) -> Result<(), Failed>
    requires small { gate + 1 < 2 ^ 64 }
    requires closed { IfTold (D.held disk.old) (λ all. (gate < length all) × IsClosed (take gate all) all) }
    requires images { IfTold (D.held disk.old) (λ _. (d : List ℕ) → D.images disk.old d → (gate < length d) × IsClosed (take gate d) d) }
    ensures ok { OnOk result (HasOpened (D.held disk.old) (D.held disk.new) (D.images disk.new) gate bytes.now) }
    ensures any_moment { IfTold (D.held disk.old) (λ _. LeavesOnly D.Disk disk.old disk.new (IsEitherOf (D.images disk.old) gate bytes.now)) }
    ensures images { IfTold (D.held disk.old) (λ _. (c : _) → D.images disk.new c → IsEitherOf (D.images disk.old) gate bytes.now c) }
    ensures tries { DiskMayFail D.Disk disk.old disk.new (IsErr result) }
{
    write_synced(disk, gate + 1, bytes)?;
    write_synced(disk, gate, &[1])
}

// Where the closing gate byte stands once so many bytes more stand in front of it. Where that is no place of a disk, it
// is the last one.
pub(crate) fn next_gate(gate: u64, bytes: usize) -> u64
    ensures next { gate + bytes + 1 < 2 ^ 64 → result ≡ gate + bytes }
    ensures small { result + 1 < 2 ^ 64 }
{
    gate.saturating_add(bytes as u64).min(u64::MAX - 1)
}

// Writes the record whose bytes these are behind the last of the list, in place of the closing gate byte: the next one
// stands behind them.
pub(crate) fn write_record<D: Disk>(
    disk: &mut D,
    recent: &Recent,
    rec: &Rec,
    gate: u64,
    next: u64,
    bytes: &[u8],
) -> Result<(), Failed>
    requires kept { IsKept (D.held disk.old) (D.images disk.old) recent.now.all false gate }
    requires of_table { IsRecord rec.now }
    requires bytes { bytes.now ≡ framed rec.now ++ 0 ∷ [] }
    requires fits { end_of recent.now.all + length bytes.now + 1 < 2 ^ 64 }
    requires next { gate + length bytes.now + 1 < 2 ^ 64 → next ≡ gate + length bytes.now }
    requires small { next + 1 < 2 ^ 64 }
    ensures ok { OnOk result (IsKept (D.held disk.new) (D.images disk.new) (recent.now.all ++ rec.now ∷ []) false next) }
    ensures version { OnOk result ((v : Option ℕ) → HasVersion (D.held disk.old) v → HasVersion (D.held disk.new) v) }
    ensures crashes { WritesAtMost D.Disk disk.old disk.new recent.now.all rec.now }
    ensures in_doubt { IsInDoubt (D.held disk.new) (D.images disk.new) recent.now.all true (Some rec.now) }
    ensures none_in_doubt { OnOk result (IsInDoubt (D.held disk.new) (D.images disk.new) (recent.now.all ++ rec.now ∷ []) false None) }
    ensures acknowledged { OnOk result (EachImage D.Disk disk.new (λ c. StandsFor c (recent.now.all ++ rec.now ∷ []))) }
    ensures tries { DiskMayFail D.Disk disk.old disk.new (IsErr result) }
{
    write_behind(disk, gate, bytes)
}
