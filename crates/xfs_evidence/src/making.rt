//! The evidence.

ghost use Rattle.std.specs.Prelude.{◌≡◌, ◌+◌, ◌≤◌, IfOk, IsTrue, Some, length};
ghost use Rattle.xfs_token.specs.Token.{is_nonce};
ghost use Rattle.xfs_guard.specs.Segment.{carried, IsTellable};
ghost use Rattle.xfs_journal.specs.Journal.{is_issue};
ghost use Rattle.xfs_evidence.specs.Evidence.{evidence_refusal, IsEvidence, IsEvidenceBehind, MakesUnless};

use crate::segment::{last_issue, open_order, unmarked_part};
use crate::sums::amounts_presented;
use crate::text::spell;
use crate::{EvidenceFault, Shown};
use std::alloc::Global;
use xfs_base::{Memory, UnitTable};
use xfs_journal::Rec;
use xfs_token::TokenKey;

/// What was presented under the last nonce, as a token that a host checks under the same key: the number of the last Issue
/// of these records, and for each currency of the units what was presented in its segment. So many records stand in
/// front of these; an order's number counts them. It reads back from the end to the last Issue and no further.
///
/// Where the whole journal agrees with what the mechanism did, that is what the mechanism put out (`put_out`).
pub fn evidence(
    alloc: Global,
    key: &[u8; 32],
    units: &UnitTable,
    base: u64,
    records: &[Rec],
    nonce: &[u8],
) -> Result<Vec<u8>, EvidenceFault>
    requires nonce { IsTrue (is_nonce nonce.now) }
    requires room { base + length records.now ≤ 18446744073709551615 }
    requires tellable { IsTellable units.now records.now }
    ensures ok { IfOk result (λ text. IsEvidence key.now units.now records.now nonce.now text.items) }
    ensures refused { MakesUnless (evidence_refusal base records.now) result }
    ensures put_out { IfOk result (λ text. IsEvidenceBehind base key.now units.now records.now nonce.now text.items) }
{
    evidence_under(alloc, &TokenKey::new(*key), units, base, records, nonce)
}

/// The evidence under a key that was prepared once for many.
pub fn evidence_under(
    alloc: Global,
    key: &TokenKey,
    units: &UnitTable,
    base: u64,
    records: &[Rec],
    nonce: &[u8],
) -> Result<Vec<u8>, EvidenceFault>
    requires nonce { IsTrue (is_nonce nonce.now) }
    requires room { base + length records.now ≤ 18446744073709551615 }
    requires tellable { IsTellable units.now records.now }
    ensures ok { IfOk result (λ text. IsEvidence key.now units.now records.now nonce.now text.items) }
    ensures refused { MakesUnless (evidence_refusal base records.now) result }
    ensures put_out { IfOk result (λ text. IsEvidenceBehind base key.now units.now records.now nonce.now text.items) }
{
    let place = last_issue(records);
    if place == 0 {
        return Err(EvidenceFault::NoIssue);
    }
    let (front, behind) = records.split_at(place);
    let segment = unmarked_part(behind);
    if let Some(open) = open_order(segment) {
        return Err(EvidenceFault::Unsettled {
            order: base + place as u64 + 1 + open as u64,
        });
    }
    let shown = Shown {
        issue: number_of(&front[place - 1]),
        amounts: amounts_presented(units, segment),
    };
    match spell(alloc, key, nonce, &shown) {
        Ok(text) => Ok(text),
        Err(Memory) => Err(EvidenceFault::Memory),
    }
}

// The number that an Issue carries.
fn number_of(rec: &Rec) -> u64
    requires { IsTrue (is_issue rec.now) }
    ensures { carried (Some rec.now) ≡ Some result }
{
    match rec {
        Rec::Issue { number, .. } => *number,
        _ => unreachable!(),
    }
}
