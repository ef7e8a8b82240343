//! What is written behind `refused`.

ghost use Rattle.std.specs.Prelude.{◌≡◌, IfOk, Some};
ghost use Rattle.std.specs.Option.{option_map};
ghost use Rattle.xfs_dispenser.specs.Answers.{answered};
ghost use Rattle.xfs_lines.specs.Output.Refused.{answer_word, refusal_text, refusal_number};

use crate::output::text::join_parts;
use itoa::Buffer;
use serde_json::Value;
use std::alloc::Global;
use xfs_base::Memory;
use xfs_dispenser::Refusal;
use xfs_envelope::Code;
use xfs_guard::Deny;
use xfs_json::words;

/// The answer to a line that is refused: the completion code of XFS4IoT, or the error of a command,
/// and the number that tells the cause. Want of memory is no answer.
pub fn refusal_text(alloc: Global, refusal: &Refusal) -> Result<Vec<u8>, Memory>
    ensures { IfOk result (λ text. refusal_text refusal.now ≡ Some text.items) }
{
    let (code, payload) = refusal.answer(alloc)?;
    let mut text = join_parts(alloc, b"refused ", word_of(code, &payload).as_bytes())?;
    if let Some((name, number)) = number_of(refusal) {
        text.push(b' ')?;
        text.extend_from_slice(name.as_bytes())?;
        text.push(b' ')?;
        text.extend_from_slice(Buffer::new().format(number).as_bytes())?;
    }
    Ok(text)
}

// The error that the payload tells, where it tells one, or else the completion code.
fn word_of(code: Code, payload: &Value) -> &str
    ensures { result.now ≡ answer_word (answered code payload.now) }
{
    match words(payload, "errorCode") {
        Ok(Some(error)) => error,
        _ => code.text(),
    }
}

// The number that tells the cause, with its name.
fn number_of(refusal: &Refusal) -> Option<(&'static str, u64)>
    ensures { option_map (λ n. (n.0.now, n.1)) result ≡ refusal_number refusal.now }
{
    match refusal {
        Refusal::Deny(Deny::NoNonce { since } | Deny::WrongNonce { since }) => {
            Some(("record", *since))
        }
        Refusal::Deny(Deny::OtherBound { since }) => Some(("bound", *since)),
        Refusal::Deny(Deny::OverBudget { left, .. }) => Some(("left", left.0)),
        _ => None,
    }
}
