//! Comparing the list that a disk has with those that it may have.
ghost use Rattle.std.specs.Prelude.{◌≡◌, ◌≢◌, ◌<◌, ◌≤◌, ◌+◌, ◌^◌, true, false, None, length, take, slice_get, IfSome};
ghost use Rattle.std.specs.List.{AllByRecursion};
ghost use Rattle.xfs_journal.specs.Image.{IsRecord, blocks};
ghost use Rattle.xfs_journal.specs.JournalView.{IsPossible, PartsAt};

use crate::Rec;
use crate::body::fill;
use crate::buffer::Buffer;

// Whether two records have the same bytes.
fn is_same(one: &Rec, other: &Rec, first: &mut Buffer, second: &mut Buffer) -> bool
    requires of_table { IsRecord one.now × IsRecord other.now }
    ensures yes { result ≡ true → one.now ≡ other.now }
    ensures no { result ≡ false → one.now ≢ other.now }
{
    fill(first, one);
    fill(second, other);
    first.bytes() == second.bytes()
}

// How many records two lists begin with in common.
fn common(found: &[Rec], kept: &[Rec], first: &mut Buffer, second: &mut Buffer) -> usize
    requires of_table { AllByRecursion IsRecord found.now × AllByRecursion IsRecord kept.now }
    ensures within { (result ≤ length found.now) × (result ≤ length kept.now) }
    ensures same { take result found.now ≡ take result kept.now }
    ensures differs { result < length found.now → result < length kept.now → slice_get found.now result ≢ slice_get kept.now result }
{
    let mut count = 0;
    while count < found.len() && count < kept.len() {
        if !is_same(&found[count], &kept[count], first, second) {
            return count;
        }
        count += 1;
    }
    count
}

// Compares what stands behind the kept list with the record in doubt.
fn parts_behind(
    found: &[Rec],
    kept: &[Rec],
    in_doubt: &Option<Rec>,
    first: &mut Buffer,
    second: &mut Buffer,
) -> Option<usize>
    requires of_table { AllByRecursion IsRecord found.now × IfSome in_doubt.now IsRecord }
    requires begins { (length kept.now ≤ length found.now) × (take (length kept.now) found.now ≡ kept.now) }
    ensures possible { result ≡ None → IsPossible kept.now in_doubt.now found.now }
    ensures other { IfSome result (λ _. ¬ IsPossible kept.now in_doubt.now found.now) }
    ensures parts { IfSome result (PartsAt kept.now in_doubt.now found.now) }
    ensures within { IfSome result (λ n. n ≤ length found.now) }
{
    let Some(next) = found.get(kept.len()) else {
        return None;
    };
    let Some(rec) = in_doubt else {
        return Some(kept.len());
    };
    if !is_same(next, rec, first, second) {
        return Some(kept.len());
    }
    if found.len() == kept.len() + 1 {
        return None;
    }
    Some(kept.len() + 1)
}

// The place, from 0, of the first record that differs, is missing or is too many, where the list is neither the kept
// one nor that one with the record in doubt.
pub(crate) fn parts_at(
    found: &[Rec],
    kept: &[Rec],
    in_doubt: &Option<Rec>,
    first: &mut Buffer,
    second: &mut Buffer,
) -> Option<usize>
    requires of_table { AllByRecursion IsRecord found.now × AllByRecursion IsRecord kept.now × IfSome in_doubt.now IsRecord }
    ensures possible { result ≡ None → IsPossible kept.now in_doubt.now found.now }
    ensures other { IfSome result (λ _. ¬ IsPossible kept.now in_doubt.now found.now) }
    ensures parts { IfSome result (PartsAt kept.now in_doubt.now found.now) }
    ensures within { IfSome result (λ n. n ≤ length found.now) }
{
    let count = common(found, kept, first, second);
    if count < kept.len() {
        return Some(count);
    }
    parts_behind(found, kept, in_doubt, first, second)
}

// How many bytes the records have.
pub(crate) fn size_of(records: &[Rec], block: &mut Buffer) -> u64
    requires of_table { AllByRecursion IsRecord records.now }
    requires small { length (blocks records.now) < 2 ^ 64 }
    ensures size { result ≡ length (blocks records.now) }
{
    let mut size = 0;
    for i in 0..records.len() {
        fill(block, &records[i]);
        size += block.len() as u64;
    }
    size
}
