ghost use Rattle.std.specs.Prelude.{◌≡◌, Some, None, Err, IfOk, option_and_then};
ghost use Rattle.serde_json.specs.View.{view};
ghost use Rattle.xfs_envelope.specs.Fields.{header_of, name_at, id_at, needed};
ghost use Rattle.xfs_envelope.specs.Replies.{reply_in, acknowledge_of, event_of, completion_of, unsolicited_of, reply_of_value, told};
ghost use Rattle.xfs_envelope.specs.declared.answer.AnswerFault.TheVariants as AnswerFault;

use crate::fields::{
    code_at, has_right_payload, header_of, id_at, is_of_type, name_at, status_at, take_payload,
};
use crate::{Code, Name, NameFault, Status};
use std::alloc::Global;
use xfs_json::{JsonFault, Value, parse};

/// A message of a service, as a client reads it.
#[derive(Drop)]
pub enum Answer {
    /// A command was received; it was accepted where there is no status.
    Acknowledge {
        id: Option<u64>,
        name: Option<Name>,
        status: Option<Status>,
    },
    /// Something happened while a command was carried out.
    Event {
        id: u64,
        name: Name,
        payload: Value,
    },
    /// A command has ended.
    Completion {
        id: u64,
        name: Name,
        code: Code,
        payload: Value,
    },
    /// Something happened that belongs to no command.
    Unsolicited {
        name: Name,
        payload: Value,
    },
}

/// Why a text is no answer: it has other fields, or memory ran out.
#[derive(Clone, Copy, Debug, PartialEq, Eq)]
pub enum AnswerFault {
    Shape,
    Memory,
}

/// Reads a message of a service. The fields of its type are looked at and no others; the payload
/// is absent, null or an object in every type, also where nothing is done with it.
pub fn read_answer(alloc: Global, text: &[u8]) -> Result<Answer, AnswerFault>
    ensures ok { IfOk result (λ a. reply_in text.now ≡ Some (told a)) }
    ensures shape { result ≡ Err AnswerFault.Shape → reply_in text.now ≡ None }
{
    match parse(alloc, text) {
        Ok(value) => answer_of(alloc, value),
        Err(JsonFault::NotJson) => Err(AnswerFault::Shape),
        Err(JsonFault::Memory) => Err(AnswerFault::Memory),
    }
}

fn answer_of(alloc: Global, value: Value) -> Result<Answer, AnswerFault>
    ensures ok { IfOk result (λ a. reply_of_value (view value) ≡ Some (told a)) }
    ensures shape { result ≡ Err AnswerFault.Shape → reply_of_value (view value) ≡ None }
{
    let Some(header) = header_of(&value) else {
        return Err(AnswerFault::Shape);
    };
    if is_of_type(header, "acknowledge") {
        acknowledge_of(alloc, header, &value)
    } else if is_of_type(header, "event") {
        event_of(alloc, value)
    } else if is_of_type(header, "completion") {
        completion_of(alloc, value)
    } else if is_of_type(header, "unsolicited") {
        unsolicited_of(alloc, value)
    } else {
        Err(AnswerFault::Shape)
    }
}

fn acknowledge_of(alloc: Global, header: &Value, value: &Value) -> Result<Answer, AnswerFault>
    ensures ok { IfOk result (λ a. acknowledge_of (view header.now) (view value.now) ≡ Some (told a)) }
    ensures shape { result ≡ Err AnswerFault.Shape → acknowledge_of (view header.now) (view value.now) ≡ None }
{
    let Ok(id) = id_at(header) else {
        return Err(AnswerFault::Shape);
    };
    let name = match name_at(alloc, header) {
        Ok(name) => name,
        Err(NameFault::Form) => return Err(AnswerFault::Shape),
        Err(NameFault::Memory) => return Err(AnswerFault::Memory),
    };
    let Ok(status) = status_at(header) else {
        return Err(AnswerFault::Shape);
    };
    if !has_right_payload(value) {
        return Err(AnswerFault::Shape);
    }
    Ok(Answer::Acknowledge { id, name, status })
}

fn event_of(alloc: Global, value: Value) -> Result<Answer, AnswerFault>
    ensures ok { IfOk result (λ a. option_and_then (λ h. event_of h (view value)) (header_of (view value)) ≡ Some (told a)) }
    ensures shape { result ≡ Err AnswerFault.Shape → option_and_then (λ h. event_of h (view value)) (header_of (view value)) ≡ None }
{
    let Some(header) = header_of(&value) else {
        return Err(AnswerFault::Shape);
    };
    let Ok(Some(id)) = id_at(header) else {
        return Err(AnswerFault::Shape);
    };
    let name = needed_name(alloc, header)?;
    match take_payload(alloc, value) {
        Some(payload) => Ok(Answer::Event { id, name, payload }),
        None => Err(AnswerFault::Shape),
    }
}

fn completion_of(alloc: Global, value: Value) -> Result<Answer, AnswerFault>
    ensures ok { IfOk result (λ a. option_and_then (λ h. completion_of h (view value)) (header_of (view value)) ≡ Some (told a)) }
    ensures shape { result ≡ Err AnswerFault.Shape → option_and_then (λ h. completion_of h (view value)) (header_of (view value)) ≡ None }
{
    let Some(header) = header_of(&value) else {
        return Err(AnswerFault::Shape);
    };
    let Ok(Some(id)) = id_at(header) else {
        return Err(AnswerFault::Shape);
    };
    let name = needed_name(alloc, header)?;
    let Ok(Some(code)) = code_at(header) else {
        return Err(AnswerFault::Shape);
    };
    match take_payload(alloc, value) {
        Some(payload) => Ok(Answer::Completion {
            id,
            name,
            code,
            payload,
        }),
        None => Err(AnswerFault::Shape),
    }
}

fn unsolicited_of(alloc: Global, value: Value) -> Result<Answer, AnswerFault>
    ensures ok { IfOk result (λ a. option_and_then (λ h. unsolicited_of h (view value)) (header_of (view value)) ≡ Some (told a)) }
    ensures shape { result ≡ Err AnswerFault.Shape → option_and_then (λ h. unsolicited_of h (view value)) (header_of (view value)) ≡ None }
{
    let Some(header) = header_of(&value) else {
        return Err(AnswerFault::Shape);
    };
    let name = needed_name(alloc, header)?;
    match take_payload(alloc, value) {
        Some(payload) => Ok(Answer::Unsolicited { name, payload }),
        None => Err(AnswerFault::Shape),
    }
}

fn needed_name(alloc: Global, header: &Value) -> Result<Name, AnswerFault>
    ensures ok { IfOk result (λ name. needed (name_at (view header.now)) ≡ Some name) }
    ensures shape { result ≡ Err AnswerFault.Shape → needed (name_at (view header.now)) ≡ None }
{
    match name_at(alloc, header) {
        Ok(Some(name)) => Ok(name),
        Ok(None) | Err(NameFault::Form) => Err(AnswerFault::Shape),
        Err(NameFault::Memory) => Err(AnswerFault::Memory),
    }
}
