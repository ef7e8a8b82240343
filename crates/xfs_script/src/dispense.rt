ghost use Rattle.std.specs.Prelude.{◌≡◌, List, ℕ, IfSome, IfNone, IfOk};
ghost use Rattle.std.specs.List.{list_all};
ghost use Rattle.xfs_base.specs.declared.counts.Counts as logic;
ghost use Rattle.xfs_script.specs.Dispense.{HasFields, IsGiven, is_token_field};
ghost use Rattle.xfs_script.specs.Dispense as line;

use crate::counts_field::read_counts;
use crate::guard_line::Given;
use crate::word::{is_word, three_fields};
use std::alloc::{AllocError, Global};
use xfs_base::{Bytes, Counts};

// The token's field and the counts of a `dispense` line.
pub(crate) fn read_dispense(text: &[u8]) -> Option<(&[u8], Counts)>
    ensures found { IfSome result (λ d. HasFields text.now d.0.now d.1) }
    ensures none { IfNone result ((token : List ℕ) (counts : logic.Counts) → ¬ HasFields text.now token counts) }
{
    let (verb, token, field) = three_fields(text)?;
    if !is_word(verb, b"dispense") {
        return None;
    }
    if !is_token(token) {
        return None;
    }
    let counts = read_counts(field)?;
    Some((token, counts))
}

fn is_token(field: &[u8]) -> bool
    ensures { result ≡ is_token_field field.now }
{
    field.len() >= 1 && field.len() <= 2_000 && are_visible(field)
}

fn are_visible(bytes: &[u8]) -> bool
    ensures { result ≡ list_all line.is_visible bytes.now }
{
    bytes.iter().all(|b| is_visible(*b))
}

// From `!` to `~`.
fn is_visible(b: u8) -> bool
    ensures { result ≡ line.is_visible b }
{
    b >= b'!' && b <= b'~'
}

// What a token's field gives.
pub(crate) fn read_given(alloc: Global, field: &[u8]) -> Result<Given, AllocError>
    ensures { IfOk result (IsGiven field.now) }
{
    if is_word(field, b"@") {
        return Ok(Given::Last);
    }
    let text = Vec::from_slice(alloc, field)?;
    Ok(Given::Text(Bytes::new(text)))
}
