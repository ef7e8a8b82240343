ghost use Rattle.std.specs.Prelude.{◌≡◌, Ok, Err, IfOk, option_map, is_some};
ghost use Rattle.serde_json.specs.Data.{Data};
ghost use Rattle.serde_json.specs.Find.{get};
ghost use Rattle.serde_json.specs.View.{view};
ghost use Rattle.xfs_envelope.specs.Fields.{header_of, is_of_type, name_at, id_at, usable_id_at, timeout_at, version_at, status_at, code_at, payload_at, needed, optional, or_else, empty};
ghost use Rattle.xfs_envelope.specs.declared.name.NameFault.TheVariants.{Form};

use crate::name::is_version;
use crate::{Code, Name, NameFault, Status};
use std::alloc::Global;
use xfs_json::{Map, Shape, Value, object, whole, words};

pub(crate) fn header_of(value: &Value) -> Option<&Value>
    ensures { option_map (λ h. view h.now) result ≡ header_of (view value.now) }
{
    match value.get("header") {
        Some(header) if header.is_object() => Some(header),
        _ => None,
    }
}

pub(crate) fn is_of_type(header: &Value, kind: &str) -> bool
    ensures { result ≡ is_of_type kind.now (view header.now) }
{
    match header.get("type") {
        Some(found) => match found.as_str() {
            Some(found) => found == kind,
            None => false,
        },
        None => false,
    }
}

pub(crate) fn name_at(alloc: Global, header: &Value) -> Result<Option<Name>, NameFault>
    ensures ok { IfOk result (λ name. name_at (view header.now) ≡ Ok name) }
    ensures form { result ≡ Err Form → name_at (view header.now) ≡ Err record {} }
{
    match words(header, "name") {
        Ok(Some(text)) => Ok(Some(Name::of(alloc, text)?)),
        Ok(None) => Ok(None),
        Err(Shape) => Err(NameFault::Form),
    }
}

pub(crate) fn id_at(header: &Value) -> Result<Option<u64>, Shape>
    ensures { result ≡ id_at (view header.now) }
{
    whole(header, "requestId", 0, u64::MAX)
}

// The id that a command must have.
pub(crate) fn needed_id_at(header: &Value) -> Option<u64>
    ensures { result ≡ needed (id_at (view header.now)) }
{
    match id_at(header) {
        Ok(found) => found,
        Err(Shape) => None,
    }
}

// The id that was found, where a command can have it.
pub(crate) fn usable(id: Option<u64>) -> Option<u32>
    ensures { (h : Data) → id ≡ needed (id_at h) → result ≡ needed (usable_id_at h) }
{
    match id {
        Some(id) if 1 <= id && id <= 2_147_483_647 => Some(id as u32),
        _ => None,
    }
}

pub(crate) fn timeout_at(header: &Value) -> Option<u32>
    ensures { result ≡ or_else 0 (timeout_at (view header.now)) }
{
    match whole(header, "timeout", 0, 2_147_483_647) {
        Ok(Some(timeout)) => Some(timeout as u32),
        Ok(None) => Some(0),
        Err(Shape) => None,
    }
}

pub(crate) fn has_right_version(header: &Value) -> bool
    ensures { result ≡ is_some (optional (version_at (view header.now))) }
{
    match words(header, "version") {
        Ok(Some(text)) => is_version(text),
        Ok(None) => true,
        Err(Shape) => false,
    }
}

pub(crate) fn status_at(header: &Value) -> Result<Option<Status>, Shape>
    ensures { result ≡ status_at (view header.now) }
{
    match words(header, "status") {
        Ok(Some(text)) => match Status::of(text) {
            Some(status) => Ok(Some(status)),
            None => Err(Shape),
        },
        Ok(None) => Ok(None),
        Err(Shape) => Err(Shape),
    }
}

pub(crate) fn code_at(header: &Value) -> Result<Option<Code>, Shape>
    ensures { result ≡ code_at (view header.now) }
{
    match words(header, "completionCode") {
        Ok(Some(text)) => match Code::of(text) {
            Some(code) => Ok(Some(code)),
            None => Err(Shape),
        },
        Ok(None) => Ok(None),
        Err(Shape) => Err(Shape),
    }
}

pub(crate) fn has_right_payload(value: &Value) -> bool
    ensures { result ≡ is_some (optional (payload_at (view value.now))) }
{
    object(value, "payload").is_ok()
}

// The payload is moved out of the message, and not copied.
pub(crate) fn take_payload(alloc: Global, value: Value) -> Option<Value>
    ensures { option_map view result ≡ or_else empty (payload_at (view value)) }
{
    match take_member(value, "payload") {
        Some(payload) if payload.is_object() => Some(payload),
        Some(payload) if !payload.is_null() => None,
        _ => Some(Value::Object(Map::new(alloc))),
    }
}

fn take_member(value: Value, name: &str) -> Option<Value>
    ensures { option_map view result ≡ get name.now (view value) }
{
    match value {
        Value::Object(mut members) => members.remove(name),
        _ => None,
    }
}
