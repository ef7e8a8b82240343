ghost use Rattle.std.specs.Prelude.{◌≡◌, ◌<◌, ◌∷◌, ◌++◌, List, [], ℕ, length, IfSome, IfNone, MatchOption, IsTrue, ◌↔◌};
ghost use Rattle.xfs_script.specs.Fields.{fields, pieces};
ghost use Rattle.xfs_script.specs.Words.{IsSkipped};

use memchr::memchr;

/// Whether a line is empty or a comment, which no command answers.
pub fn is_skipped(text: &[u8]) -> bool
    ensures { IsTrue result ↔ IsSkipped text.now }
{
    match text {
        [] => true,
        [first, ..] => *first == b'#',
    }
}

pub(crate) fn is_word(text: &[u8], word: &[u8]) -> bool
    ensures { IsTrue result ↔ (text.now ≡ word.now) }
{
    text == word
}

/// What stands behind these bytes, where the text begins with them.
pub fn field_of<'a>(text: &'a [u8], prefix: &[u8]) -> Option<&'a [u8]>
    ensures found { IfSome result (λ field. text.now ≡ prefix.now ++ field.now) }
    ensures none { IfNone result ((field : List ℕ) → ¬ (text.now ≡ prefix.now ++ field)) }
{
    if text.len() < prefix.len() {
        return None;
    }
    let (begin, field) = text.split_at(prefix.len());
    if is_word(begin, prefix) {
        Some(field)
    } else {
        None
    }
}

// What stands before the first such byte, and what stands behind it.
pub(crate) fn cut(text: &[u8], byte: u8) -> (&[u8], Option<&[u8]>)
    ensures parts { MatchOption result.1 (pieces byte text.now ≡ result.0.now ∷ []) (λ rest. pieces byte text.now ≡ result.0.now ∷ pieces byte rest.now) }
    ensures shorter { IfSome result.1 (λ behind. length behind.now < length text.now) }
{
    match memchr(byte, text) {
        Some(place) => (&text[..place], Some(&text[place + 1..])),
        None => (text, None),
    }
}

// The fields of a line that has three.
pub(crate) fn three_fields(text: &[u8]) -> Option<(&[u8], &[u8], &[u8])>
    ensures found { IfSome result (λ f. fields text.now ≡ f.0.now ∷ f.1.now ∷ f.2.now ∷ []) }
    ensures none { IfNone result ((a b c : List ℕ) → ¬ (fields text.now ≡ a ∷ b ∷ c ∷ [])) }
{
    let (first, behind) = cut(text, b' ');
    let (second, behind) = cut(behind?, b' ');
    let (third, behind) = cut(behind?, b' ');
    if behind.is_some() {
        return None;
    }
    Some((first, second, third))
}

// The fields behind a verb, where there are four.
pub(crate) fn four_fields<'a>(
    text: &'a [u8],
    verb: &[u8],
) -> Option<(&'a [u8], &'a [u8], &'a [u8], &'a [u8])>
    ensures found { IfSome result (λ f. fields text.now ≡ verb.now ∷ f.0.now ∷ f.1.now ∷ f.2.now ∷ f.3.now ∷ []) }
    ensures none { IfNone result ((a b c d : List ℕ) → ¬ (fields text.now ≡ verb.now ∷ a ∷ b ∷ c ∷ d ∷ [])) }
{
    let (word, behind) = cut(text, b' ');
    let (first, behind) = cut(behind?, b' ');
    let (second, third, fourth) = three_fields(behind?)?;
    if !is_word(word, verb) {
        return None;
    }
    Some((first, second, third, fourth))
}
