//! Reading one record's body: it is decoded by its letter, and what that record would be written as is compared.
ghost use Rattle.std.specs.Prelude.{◌≡◌, ◌≢◌, ◌≤◌, ◌+◌, true, false, drop, length, IfOk, IfErr};
ghost use Rattle.std.specs.Int.{from_be_bytes, w32, w64};
ghost use Rattle.xfs_journal.specs.Decode.{counts_in, places_in, kind_in, record_in, record_of, has_size};
ghost use Rattle.xfs_journal.specs.Image.{HasUnit, IsRecord, body};
ghost use Rattle.xfs_journal.specs.declared.faults.BodyFault.TheVariants.{Form, Memory};
ghost use Rattle.xfs_journal.specs.declared.record.Rec.{Rec};
ghost use Rattle.xfs_journal.specs.declared.record.Rec.TheVariants.{Bind};

use crate::body::put_body;
use crate::buffer::Buffer;
use crate::{BodyFault, Rec, Survey, Text};
use std::alloc::Global;
use xfs_base::{Counts, Kind, Places};

fn whole_at(bytes: &[u8], at: usize) -> u64
    requires within { at + 8 ≤ length bytes.now }
    ensures { result ≡ from_be_bytes w64 (drop at bytes.now) }
{
    let b = &bytes[at..];
    u64::from_be_bytes([b[0], b[1], b[2], b[3], b[4], b[5], b[6], b[7]])
}

fn count_at(bytes: &[u8], at: usize) -> u32
    requires within { at + 4 ≤ length bytes.now }
    ensures { result ≡ from_be_bytes w32 (drop at bytes.now) }
{
    let b = &bytes[at..];
    u32::from_be_bytes([b[0], b[1], b[2], b[3]])
}

fn counts_at(bytes: &[u8], at: usize) -> Counts
    requires within { at + 32 ≤ length bytes.now }
    ensures { result ≡ counts_in (drop at bytes.now) }
{
    Counts([
        count_at(bytes, at),
        count_at(bytes, at + 4),
        count_at(bytes, at + 8),
        count_at(bytes, at + 12),
        count_at(bytes, at + 16),
        count_at(bytes, at + 20),
        count_at(bytes, at + 24),
        count_at(bytes, at + 28),
    ])
}

fn places_at(bytes: &[u8], at: usize) -> Places
    requires within { at + 192 ≤ length bytes.now }
    ensures { result ≡ places_in (drop at bytes.now) }
{
    Places {
        units: counts_at(bytes, at),
        transport: counts_at(bytes, at + 32),
        outlet: counts_at(bytes, at + 64),
        taken: counts_at(bytes, at + 96),
        retracted: counts_at(bytes, at + 128),
        rejected: counts_at(bytes, at + 160),
    }
}

fn kind_of(byte: u8) -> Kind
    ensures { result ≡ kind_in byte }
{
    match byte {
        1 => Kind::Stack,
        2 => Kind::Present,
        3 => Kind::Reject,
        _ => Kind::Retract,
    }
}

// Whether a body with this letter may have so many bytes behind it.
fn fits(letter: u8, rest: usize) -> bool
    ensures { result ≡ has_size letter rest }
{
    match letter {
        0x49 => rest == 16,
        0x43 | 0x45 => rest == 0,
        0x42 => rest == 192,
        0x4B => rest == 200,
        0x54 => rest >= 1 && rest <= 1024,
        0x4F => rest == 33,
        0x44 => rest == 64,
        0x4C => rest == 5,
        _ => false,
    }
}

fn issue(rest: &[u8]) -> Rec
    requires within { 16 ≤ length rest.now }
    ensures { result ≡ record_in 0x49 rest.now }
{
    Rec::Issue {
        number: whole_at(rest, 0),
        word: whole_at(rest, 8),
    }
}

fn boot(alloc: Global, rest: &[u8]) -> Result<Rec, BodyFault>
    requires within { 192 ≤ length rest.now }
    ensures ok { IfOk result (λ r. r ≡ record_in 0x42 rest.now) }
    ensures err { IfErr result (λ f. f ≡ Memory) }
{
    match Survey::new(alloc, places_at(rest, 0)) {
        Ok(places) => Ok(Rec::Boot { places }),
        Err(_) => Err(BodyFault::Memory),
    }
}

fn start(alloc: Global, rest: &[u8]) -> Result<Rec, BodyFault>
    requires within { 200 ≤ length rest.now }
    ensures ok { IfOk result (λ r. r ≡ record_in 0x4B rest.now) }
    ensures err { IfErr result (λ f. f ≡ Memory) }
{
    match Survey::new(alloc, places_at(rest, 8)) {
        Ok(places) => Ok(Rec::Start {
            issues: whole_at(rest, 0),
            places,
        }),
        Err(_) => Err(BodyFault::Memory),
    }
}

fn order(rest: &[u8]) -> Rec
    requires within { 33 ≤ length rest.now }
    ensures { result ≡ record_in 0x4F rest.now }
{
    Rec::Order {
        kind: kind_of(rest[0]),
        counts: counts_at(rest, 1),
    }
}

fn done(rest: &[u8]) -> Rec
    requires within { 64 ≤ length rest.now }
    ensures { result ≡ record_in 0x44 rest.now }
{
    Rec::Done {
        moved: counts_at(rest, 0),
        diverted: counts_at(rest, 32),
    }
}

fn load(rest: &[u8]) -> Rec
    requires within { 5 ≤ length rest.now }
    ensures { result ≡ record_in 0x4C rest.now }
{
    Rec::Load {
        unit: rest[0],
        count: count_at(rest, 1),
    }
}

fn bind(alloc: Global, token: &[u8]) -> Result<Rec, BodyFault>
    requires low { 1 ≤ length token.now }
    requires high { length token.now ≤ 1024 }
    ensures ok { IfOk result (λ r. r ≡ Bind token.now) }
    ensures err { IfErr result (λ f. f ≡ Memory) }
{
    let Ok(bytes) = token.to_vec(alloc) else {
        return Err(BodyFault::Memory);
    };
    Text::new(bytes)
        .map(|token| Rec::Bind { token })
        .ok_or(BodyFault::Memory)
}

// What stands behind the letter, if it is a body.
fn decode_rest(alloc: Global, letter: u8, rest: &[u8]) -> Result<Rec, BodyFault>
    requires size { has_size letter (length rest.now) ≡ true }
    ensures ok { IfOk result (λ r. r ≡ record_in letter rest.now) }
    ensures err { IfErr result (λ f. f ≡ Memory) }
{
    match letter {
        0x49 => Ok(issue(rest)),
        0x43 => Ok(Rec::Clear),
        0x45 => Ok(Rec::Expire),
        0x42 => boot(alloc, rest),
        0x4B => start(alloc, rest),
        0x54 => bind(alloc, rest),
        0x4F => Ok(order(rest)),
        0x44 => Ok(done(rest)),
        _ => Ok(load(rest)),
    }
}

// Decodes a body of its letter's size; a Load's unit is looked at.
fn decode(alloc: Global, bytes: &[u8]) -> Result<Rec, BodyFault>
    ensures ok { IfOk result (λ r. (r ≡ record_of bytes.now) × HasUnit r) }
    ensures form { IfErr result (λ f. f ≡ Form → (r : Rec) → IsRecord r → body r ≢ bytes.now) }
{
    let Some((letter, rest)) = bytes.split_first() else {
        return Err(BodyFault::Form);
    };
    if !fits(*letter, rest.len()) {
        return Err(BodyFault::Form);
    }
    let rec = decode_rest(alloc, *letter, rest)?;
    if has_unit(&rec) {
        Ok(rec)
    } else {
        Err(BodyFault::Form)
    }
}

fn has_unit(rec: &Rec) -> bool
    ensures yes { result ≡ true → HasUnit rec.now }
    ensures no { result ≡ false → IsRecord rec.now → ⊥ }
{
    match rec {
        Rec::Load { unit, .. } => *unit >= 1 && *unit <= 8,
        _ => true,
    }
}

// Reads a body with the help of a buffer.
pub(crate) fn read_with(alloc: Global, bytes: &[u8], buffer: &mut Buffer) -> Result<Rec, BodyFault>
    ensures ok { IfOk result (λ r. IsRecord r × (body r ≡ bytes.now)) }
    ensures form { IfErr result (λ f. f ≡ Form → (r : Rec) → IsRecord r → body r ≢ bytes.now) }
{
    let rec = decode(alloc, bytes)?;
    buffer.clear();
    put_body(buffer, &rec);
    if buffer.bytes() == bytes {
        Ok(rec)
    } else {
        Err(BodyFault::Form)
    }
}

/// Reads the bytes of one record's body: `Form` exactly where the format has no such body.
pub fn read_body(alloc: Global, bytes: &[u8]) -> Result<Rec, BodyFault>
    ensures ok { IfOk result (λ r. IsRecord r × (body r ≡ bytes.now)) }
    ensures form { IfErr result (λ f. f ≡ Form → (r : Rec) → IsRecord r → body r ≢ bytes.now) }
{
    match Buffer::new(alloc) {
        Ok(mut buffer) => read_with(alloc, bytes, &mut buffer),
        Err(_) => Err(BodyFault::Memory),
    }
}
