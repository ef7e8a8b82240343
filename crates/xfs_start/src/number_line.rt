//! The lines of `xfs.bench` that are a word and numbers.

ghost use Rattle.std.specs.Prelude.{◌≡◌, ◌≤◌, ◌==◌, ◌↔◌, ℕ, List, decimal, map, false, Some, IfNone, IfOk, IfSome, IsTrue};
ghost use Rattle.std.specs.List.{AllZip, slice_split};
ghost use Rattle.xfs_mech.specs.declared.fault.Fault as faults;
ghost use Rattle.xfs_script.specs.Fields.{fields};
ghost use Rattle.xfs_start.specs.BenchLines.{IsBenchLine, IsCall, IsFailing, IsFault, IsNotes, IsPorts, has_numbers};
ghost use Rattle.xfs_start.specs.declared.bench_line.BenchLine as lines;

use crate::bench_line::BenchLine;
use std::alloc::{AllocError, Global};
use xfs_mech::Fault;
use xfs_script::read_number;

// The greatest port of the first of four.
const LAST_FIRST_PORT: u64 = 65_532;

// Reads a line that has numbers.
pub(crate) fn read_numbers(alloc: Global, text: &[u8]) -> Result<Option<BenchLine>, AllocError>
    ensures found { IfOk result (λ read. IfSome read (IsBenchLine text.now)) }
    ensures none { IfOk result (λ read. IfNone read ((line : lines.BenchLine) → IsBenchLine text.now line → has_numbers line ≡ false)) }
{
    let fields = fields_of(alloc, text)?;
    if let Some(first) = read_ports(&fields) {
        return Ok(Some(BenchLine::Ports(first)));
    }
    if let Some(fault) = read_fault(&fields) {
        return Ok(Some(BenchLine::Fault(fault)));
    }
    match read_failing(alloc, &fields)? {
        Some(calls) => Ok(Some(BenchLine::Failing(calls))),
        None => Ok(None),
    }
}

// What stands between the spaces of a line.
fn fields_of(alloc: Global, text: &[u8]) -> Result<Vec<&[u8]>, AllocError>
    ensures { IfOk result (λ list. map (λ field. field.now) list.items ≡ fields text.now) }
{
    text.split(|byte| *byte == b' ').collect(alloc)
}

fn read_ports(fields: &[&[u8]]) -> Option<u16>
    ensures found { IfSome result (IsPorts (map (λ field. field.now) fields.now)) }
    ensures none { IfNone result ((first : ℕ) → ¬ IsPorts (map (λ field. field.now) fields.now) first) }
{
    match fields {
        [word, first] if is_word(word, b"ports") => read_first_port(first),
        _ => None,
    }
}

fn read_first_port(field: &[u8]) -> Option<u16>
    ensures found { IfSome result (λ first. (field.now ≡ decimal first) × (1 ≤ first) × (first ≤ 65532)) }
    ensures none { IfNone result ((first : ℕ) → 1 ≤ first → first ≤ 65532 → ¬ (field.now ≡ decimal first)) }
{
    let first = read_number(field, LAST_FIRST_PORT)?;
    if first == 0 {
        return None;
    }
    Some(first as u16)
}

fn read_fault(fields: &[&[u8]]) -> Option<Fault>
    ensures found { IfSome result (IsFault (map (λ field. field.now) fields.now)) }
    ensures none { IfNone result ((fault : faults.Fault) → ¬ IsFault (map (λ field. field.now) fields.now) fault) }
{
    match fields {
        [word, call, moved, diverted] if is_word(word, b"fault") => {
            read_three(call, moved, diverted)
        }
        _ => None,
    }
}

fn read_three(call: &[u8], moved: &[u8], diverted: &[u8]) -> Option<Fault>
    ensures call { IfSome result (λ fault. IsCall call.now fault.call) }
    ensures moved { IfSome result (λ fault. IsNotes moved.now fault.moved) }
    ensures diverted { IfSome result (λ fault. IsNotes diverted.now fault.diverted) }
    ensures none { IfNone result ((f : faults.Fault) → IsCall call.now f.call → IsNotes moved.now f.moved → ¬ IsNotes diverted.now f.diverted) }
{
    let call = read_call(call)?;
    let moved = read_notes(moved)?;
    let diverted = read_notes(diverted)?;
    Some(Fault {
        call,
        moved,
        diverted,
    })
}

fn read_failing(alloc: Global, fields: &[&[u8]]) -> Result<Option<Vec<u64>>, AllocError>
    ensures found { IfOk result (λ read. IfSome read (λ calls. IsFailing (map (λ field. field.now) fields.now) calls.items)) }
    ensures none { IfOk result (λ read. IfNone read ((calls : List ℕ) → ¬ IsFailing (map (λ field. field.now) fields.now) calls)) }
{
    match fields {
        [word, places @ ..] if is_word(word, b"failing") && !places.is_empty() => {
            read_calls(alloc, places)
        }
        _ => Ok(None),
    }
}

fn read_calls(alloc: Global, places: &[&[u8]]) -> Result<Option<Vec<u64>>, AllocError>
    ensures found { IfOk result (λ read. IfSome read (λ calls. AllZip IsCall (map (λ field. field.now) places.now) calls.items)) }
    ensures none { IfOk result (λ read. IfNone read ((calls : List ℕ) → ¬ AllZip IsCall (map (λ field. field.now) places.now) calls)) }
{
    let mut calls = Vec::new(alloc);
    for place in places {
        let Some(call) = read_call(place) else {
            return Ok(None);
        };
        calls.push(call)?;
    }
    Ok(Some(calls))
}

fn read_call(field: &[u8]) -> Option<u64>
    ensures found { IfSome result (IsCall field.now) }
    ensures none { IfNone result ((call : ℕ) → ¬ IsCall field.now call) }
{
    let call = read_number(field, u64::MAX)?;
    if call == 0 {
        return None;
    }
    Some(call)
}

fn read_notes(field: &[u8]) -> Option<u32>
    ensures found { IfSome result (IsNotes field.now) }
    ensures none { IfNone result ((count : ℕ) → ¬ IsNotes field.now count) }
{
    let count = read_number(field, u64::from(u32::MAX))?;
    Some(count as u32)
}

fn is_word(field: &[u8], word: &[u8]) -> bool
    ensures { IsTrue result ↔ (field.now ≡ word.now) }
{
    field == word
}
