ghost use Rattle.std.specs.Prelude.{◌≡◌, IfOk, IfSome, IfNone, Err};
ghost use Rattle.xfs_journal.specs.declared.record.Rec.{Rec as Record};
ghost use Rattle.xfs_script.specs.AuditLines.{IsAuditLine, IsRecordLine};
ghost use Rattle.xfs_script.specs.declared.audit_line.AuditLine.{AuditLine};
ghost use Rattle.xfs_script.specs.declared.guard_line.ScriptFault.TheVariants as ScriptFault;

use crate::audit_fields::{read_entry, read_places};
use crate::guard_line::ScriptFault;
use crate::hex_field::bytes_of_digits;
use crate::word::{field_of, is_skipped};
use std::alloc::Global;
use xfs_base::{Memory, Places};
use xfs_journal::{BodyFault, Rec, read_body};
use xfs_mech::Motion;

/// A line of the command `audit`: what it hands in.
#[derive(Drop)]
pub enum AuditLine {
    /// An empty line or a comment. It hands in nothing.
    Skip,
    /// A record of the journal, behind those before it.
    Body(Rec),
    /// An entry of the mechanism's list, behind those before it.
    Entry(Motion),
    /// The places at the list's beginning.
    From(Places),
    /// The places at its end.
    To(Places),
}

/// Reads a line of `audit`, given without its end. The allocator is for the bytes that a record holds.
pub fn read_audit(alloc: Global, text: &[u8]) -> Result<AuditLine, ScriptFault>
    ensures ok { IfOk result (IsAuditLine text.now) }
    ensures not_a_line { result ≡ Err ScriptFault.NotALine → (line : AuditLine) → ¬ IsAuditLine text.now line }
{
    if is_skipped(text) {
        return Ok(AuditLine::Skip);
    }
    match read_record(alloc, text) {
        Ok(Some(record)) => return Ok(AuditLine::Body(record)),
        Ok(None) => {}
        Err(Memory) => return Err(ScriptFault::Memory),
    }
    if let Some(entry) = read_entry(text) {
        return Ok(AuditLine::Entry(entry));
    }
    if let Some(places) = read_places(text, b"from") {
        return Ok(AuditLine::From(places));
    }
    match read_places(text, b"to") {
        Some(places) => Ok(AuditLine::To(places)),
        None => Err(ScriptFault::NotALine),
    }
}

// The record of a `record` line.
fn read_record(alloc: Global, text: &[u8]) -> Result<Option<Rec>, Memory>
    ensures found { IfOk result (λ found. IfSome found (IsRecordLine text.now)) }
    ensures none { IfOk result (λ found. IfNone found ((written : Record) → ¬ IsRecordLine text.now written)) }
{
    let Some(digits) = field_of(text, b"record ") else {
        return Ok(None);
    };
    let Some(bytes) = bytes_of_digits(alloc, digits)? else {
        return Ok(None);
    };
    match read_body(alloc, &bytes) {
        Ok(record) => Ok(Some(record)),
        Err(BodyFault::Form) => Ok(None),
        Err(BodyFault::Memory) => Err(Memory),
    }
}
