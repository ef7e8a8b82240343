//! The bytes of one record. The buffer they are put into has its room, so no call here takes memory.
ghost use Rattle.std.specs.Prelude.{◌≡◌, ◌<◌, ◌≤◌, ◌+◌, ◌^◌, ◌++◌, [], ◌∷◌, length};
ghost use Rattle.std.specs.Int.{to_be_bytes, w32, w64};
ghost use Rattle.xfs_journal.specs.declared.buffer.TheConstants.{MOST};
ghost use Rattle.xfs_journal.specs.Image.{body, counts_bytes, places_bytes, kind_byte, framed, AreCounts, IsRecord, HasUnit};

use crate::Rec;
use crate::buffer::Buffer;
use xfs_base::{Counts, Kind, Places};

fn put_whole(out: &mut Buffer, number: u64)
    requires room { length out.old + 8 ≤ MOST }
    ensures items { out.new ≡ out.old ++ to_be_bytes w64 number }
    ensures fits { number < 2 ^ 64 }
{
    out.put(&number.to_be_bytes());
}

fn put_count(out: &mut Buffer, count: u32)
    requires room { length out.old + 4 ≤ MOST }
    ensures items { out.new ≡ out.old ++ to_be_bytes w32 count }
    ensures fits { count < 2 ^ 32 }
{
    out.put(&count.to_be_bytes());
}

fn put_counts(out: &mut Buffer, counts: &Counts)
    requires room { length out.old + 32 ≤ MOST }
    ensures items { out.new ≡ out.old ++ counts_bytes counts.now }
    ensures len { length out.new ≡ length out.old + 32 }
    ensures fits { AreCounts counts.now }
{
    let [a, b, c, d, e, f, g, h] = counts.0;
    put_count(out, a);
    put_count(out, b);
    put_count(out, c);
    put_count(out, d);
    put_count(out, e);
    put_count(out, f);
    put_count(out, g);
    put_count(out, h);
}

fn put_places(out: &mut Buffer, places: &Places)
    requires room { length out.old + 192 ≤ MOST }
    ensures items { out.new ≡ out.old ++ places_bytes places.now }
    ensures len { length out.new ≡ length out.old + 192 }
    ensures units { AreCounts places.now.units × AreCounts places.now.transport }
    ensures outlet { AreCounts places.now.outlet × AreCounts places.now.taken }
    ensures rejected { AreCounts places.now.retracted × AreCounts places.now.rejected }
{
    put_counts(out, &places.units);
    put_counts(out, &places.transport);
    put_counts(out, &places.outlet);
    put_counts(out, &places.taken);
    put_counts(out, &places.retracted);
    put_counts(out, &places.rejected);
}

fn byte_of(kind: Kind) -> u8
    ensures { result ≡ kind_byte kind }
{
    match kind {
        Kind::Stack => 1,
        Kind::Present => 2,
        Kind::Reject => 3,
        Kind::Retract => 4,
    }
}

// Puts the body behind what is there.
pub(crate) fn put_body(out: &mut Buffer, rec: &Rec)
    requires unit { HasUnit rec.now }
    requires room { length out.old + 1025 ≤ MOST }
    ensures items { out.new ≡ out.old ++ body rec.now }
    ensures len { length out.new ≤ length out.old + 1025 }
    ensures of_table { IsRecord rec.now }
{
    match rec {
        Rec::Issue { number, word } => {
            out.put(&[0x49]);
            put_whole(out, *number);
            put_whole(out, *word);
        }
        Rec::Clear => out.put(&[0x43]),
        Rec::Expire => out.put(&[0x45]),
        Rec::Boot { places } => {
            out.put(&[0x42]);
            put_places(out, places.places());
        }
        Rec::Start { issues, places } => {
            out.put(&[0x4B]);
            put_whole(out, *issues);
            put_places(out, places.places());
        }
        Rec::Bind { token } => {
            out.put(&[0x54]);
            out.put(token.bytes());
        }
        Rec::Order { kind, counts } => {
            out.put(&[0x4F, byte_of(*kind)]);
            put_counts(out, counts);
        }
        Rec::Done { moved, diverted } => {
            out.put(&[0x44]);
            put_counts(out, moved);
            put_counts(out, diverted);
        }
        Rec::Load { unit, count } => {
            out.put(&[0x4C, *unit]);
            put_count(out, *count);
        }
    }
}

// What is written behind the gate: the length, the body, and a closing gate byte.
pub(crate) fn fill(out: &mut Buffer, rec: &Rec)
    requires unit { HasUnit rec.now }
    ensures items { out.new ≡ framed rec.now ++ 0 ∷ [] }
    ensures of_table { IsRecord rec.now }
{
    out.clear();
    out.put(&[0, 0]);
    put_body(out, rec);
    out.write_size();
    out.put(&[0]);
}
