ghost use Rattle.std.specs.Prelude.{◌≡◌, ◌∷◌, [], List, ℕ, IfSome, IfNone};
ghost use Rattle.xfs_base.specs.declared.counts.Counts as logic;
ghost use Rattle.xfs_base.specs.declared.counts.Kind as kinds;
ghost use Rattle.xfs_base.specs.declared.counts.Places as lying;
ghost use Rattle.xfs_mech.specs.declared.motion.Motion.{Motion as Entry};
ghost use Rattle.xfs_script.specs.AuditLines.{ArePlaces, IsCountsField, IsEntry, IsLoaded, IsMoved, IsTaken, kind_word};
ghost use Rattle.xfs_script.specs.Fields.{fields};

use crate::counts_field::{number_of_unit, read_count, read_counts};
use crate::host_fields::read_any;
use crate::word::{cut, field_of, four_fields, is_word, three_fields};
use xfs_base::{Counts, Kind, Places};
use xfs_mech::Motion;

// The entry that a `moved`, a `taken` or a `loaded` line writes.
pub(crate) fn read_entry(text: &[u8]) -> Option<Motion>
    ensures found { IfSome result (IsEntry text.now) }
    ensures none { IfNone result ((entry : Entry) → ¬ IsEntry text.now entry) }
{
    if let Some((number, kind, moved, diverted)) = read_moved(text) {
        return Some(Motion::Moved {
            number,
            kind,
            moved,
            diverted,
        });
    }
    if let Some(counts) = read_taken(text) {
        return Some(Motion::Taken { counts });
    }
    let (unit, count) = read_loaded(text)?;
    Some(Motion::Loaded { unit, count })
}

// The order's number and kind, and what was moved and diverted.
fn read_moved(text: &[u8]) -> Option<(u64, Kind, Counts, Counts)>
    ensures found { IfSome result (λ m. IsMoved text.now m.0 m.1 m.2 m.3) }
    ensures none { IfNone result ((number : ℕ) (kind : kinds.Kind) (moved diverted : logic.Counts) → ¬ IsMoved text.now number kind moved diverted) }
{
    let (digits, word, first, second) = four_fields(text, b"moved")?;
    let number = read_any(digits)?;
    let kind = read_kind(word)?;
    let moved = counts_or_none(first)?;
    let diverted = counts_or_none(second)?;
    Some((number, kind, moved, diverted))
}

fn read_kind(field: &[u8]) -> Option<Kind>
    ensures found { IfSome result (λ kind. field.now ≡ kind_word kind) }
    ensures none { IfNone result ((kind : kinds.Kind) → ¬ (field.now ≡ kind_word kind)) }
{
    if is_word(field, b"stack") {
        return Some(Kind::Stack);
    }
    if is_word(field, b"present") {
        return Some(Kind::Present);
    }
    if is_word(field, b"reject") {
        return Some(Kind::Reject);
    }
    if is_word(field, b"retract") {
        return Some(Kind::Retract);
    }
    None
}

fn read_taken(text: &[u8]) -> Option<Counts>
    ensures found { IfSome result (IsTaken text.now) }
    ensures none { IfNone result ((counts : logic.Counts) → ¬ IsTaken text.now counts) }
{
    let field = field_of(text, b"taken ")?;
    counts_or_none(field)
}

// The unit and the count of a `loaded` line.
fn read_loaded(text: &[u8]) -> Option<(u8, u32)>
    ensures found { IfSome result (λ l. IsLoaded text.now l.0 l.1) }
    ensures none { IfNone result ((unit count : ℕ) → ¬ IsLoaded text.now unit count) }
{
    let (unit, digits) = number_of_unit(field_of(text, b"loaded unit")?, b' ')?;
    let count = read_count(digits)?;
    Some((unit, count))
}

// The places of a line with this verb.
pub(crate) fn read_places(text: &[u8], verb: &[u8]) -> Option<Places>
    ensures found { IfSome result (ArePlaces verb.now text.now) }
    ensures none { IfNone result ((places : lying.Places) → ¬ ArePlaces verb.now text.now places) }
{
    let (units, transport, outlet, taken, retracted, rejected) = six_fields(text, verb)?;
    Some(Places {
        units: counts_or_none(units)?,
        transport: counts_or_none(transport)?,
        outlet: counts_or_none(outlet)?,
        taken: counts_or_none(taken)?,
        retracted: counts_or_none(retracted)?,
        rejected: counts_or_none(rejected)?,
    })
}

// The six fields behind a verb.
fn six_fields<'a>(
    text: &'a [u8],
    verb: &[u8],
) -> Option<(&'a [u8], &'a [u8], &'a [u8], &'a [u8], &'a [u8], &'a [u8])>
    ensures found { IfSome result (λ f. fields text.now ≡ verb.now ∷ f.0.now ∷ f.1.now ∷ f.2.now ∷ f.3.now ∷ f.4.now ∷ f.5.now ∷ []) }
    ensures none { IfNone result ((p q r s t u : List ℕ) → ¬ (fields text.now ≡ verb.now ∷ p ∷ q ∷ r ∷ s ∷ t ∷ u ∷ [])) }
{
    let (word, behind) = cut(text, b' ');
    let (first, behind) = cut(behind?, b' ');
    let (second, behind) = cut(behind?, b' ');
    let (third, behind) = cut(behind?, b' ');
    let (fourth, fifth, sixth) = three_fields(behind?)?;
    if !is_word(word, verb) {
        return None;
    }
    Some((first, second, third, fourth, fifth, sixth))
}

fn counts_or_none(field: &[u8]) -> Option<Counts>
    ensures found { IfSome result (IsCountsField field.now) }
    ensures none { IfNone result ((counts : logic.Counts) → ¬ IsCountsField field.now counts) }
{
    if is_word(field, b"none") {
        return Some(Counts([0; 8]));
    }
    read_counts(field)
}
