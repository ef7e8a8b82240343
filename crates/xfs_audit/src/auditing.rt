//! The audit.

ghost use Rattle.std.specs.Prelude.{IfOk};
ghost use Rattle.xfs_audit.specs.Verdicts.{IsVerdict};

use crate::agreement::agrees;
use crate::numbering::is_numbered;
use crate::places::leads_to;
use crate::verdict::{Rule, Verdict};
use crate::within::is_within;
use std::alloc::Global;
use xfs_base::{Memory, Places, UnitTable};
use xfs_journal::Rec;
use xfs_mech::Motion;

/// Whether the records of a journal, a mechanism's list of motions, and the places at its beginning
/// and at its end keep the rules, under a key and a table of units; else the first that they break.
/// Records and motions are read from front to back, once for each part of a rule, and not copied.
pub fn audit(
    alloc: Global,
    key: &[u8; 32],
    units: &UnitTable,
    records: &[Rec],
    motions: &[Motion],
    from: &Places,
    to: &Places,
) -> Result<Verdict, Memory>
    ensures { IfOk result (IsVerdict key.now units.now records.now motions.now from.now to.now) }
{
    if !agrees(records, motions) {
        return Ok(Verdict::Broken(Rule::Agrees));
    }
    if !is_numbered(records) {
        return Ok(Verdict::Broken(Rule::Numbered));
    }
    if !is_within(alloc, key, units, records, motions)? {
        return Ok(Verdict::Broken(Rule::Within));
    }
    if !leads_to(from, motions, to) {
        return Ok(Verdict::Broken(Rule::Places));
    }
    Ok(Verdict::Clean)
}
