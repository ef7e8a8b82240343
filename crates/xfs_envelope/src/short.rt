//! Commands without members, known by their text: JSON's reader has nothing to add.

ghost use Rattle.std.specs.Prelude.{◌≡◌, ◌≤◌, ◌<◌, ◌^◌, Ok, IfOk, IfSome, IsTrue, length, string_bytes};
ghost use Rattle.serde_json.specs.View.{view};
ghost use Rattle.xfs_envelope.specs.Short.{IsShortEnd, short_text};
ghost use Rattle.xfs_envelope.specs.Commands.{command_in, said};
ghost use Rattle.xfs_envelope.specs.Fields.{empty};

use crate::messages::push_all;
use crate::{Envelope, Name};
use std::alloc::{AllocError, Global};
use xfs_json::{Map, Value};

const BEGIN: &str = "{\"header\":{\"name\":\"";

const TYPE: &str = "\"type\":\"command\"";

// No such text with a name and an id is longer.
const ROOM: usize = 256;

/// The command of a text that has nothing but a name and an id, where it is spelled as most clients do: with no blanks,
/// its header's members in the order of their names, no version or 2.0, and no payload or an empty one. None says nothing.
pub(crate) fn short_command(alloc: Global, text: &[u8]) -> Option<Envelope>
    requires { length text.now ≤ 65536 }
    ensures { IfSome result (λ e. command_in text.now ≡ Ok (said e)) }
{
    let text = str::from_utf8(text).ok()?;
    let (name, id, end) = parts_of(text)?;
    if !is_short_end(end) {
        return None;
    }
    let name = Name::of(alloc, name).ok()?;
    if !is_spelled(alloc, text, name.as_str(), id, end) {
        return None;
    }
    Some(Envelope {
        name,
        id,
        timeout: 0,
        payload: no_members(alloc),
    })
}

fn no_members(alloc: Global) -> Value
    ensures { view result ≡ empty }
{
    Value::Object(Map::new(alloc))
}

// Where such a text has its name, its id and what stands behind its type.
fn parts_of(text: &str) -> Option<(&str, u64, &str)> {
    let (name, behind) = text.strip_prefix(BEGIN)?.split_once('"')?;
    let (digits, behind) = behind.strip_prefix(",\"requestId\":")?.split_once(',')?;
    let id = digits.parse::<u64>().ok()?;
    Some((name, id, behind.strip_prefix(TYPE)?))
}

fn is_short_end(end: &str) -> bool
    ensures { IsTrue result → IsShortEnd end.now }
{
    end == "}}"
        || end == "},\"payload\":{}}"
        || end == ",\"version\":\"2.0\"}}"
        || end == ",\"version\":\"2.0\"},\"payload\":{}}"
}

// Whether a text is the one that these parts make. Where memory runs out it isn't known.
fn is_spelled(alloc: Global, text: &str, name: &str, id: u64, end: &str) -> bool
    ensures text { IsTrue result → text.now ≡ short_text name.now id end.now }
    ensures fits { id < 2 ^ 64 }
{
    match spell(alloc, name, id, end) {
        Ok(spelled) => spelled.as_str() == text,
        Err(_) => false,
    }
}

fn spell(alloc: Global, name: &str, id: u64, end: &str) -> Result<String, AllocError>
    ensures { IfOk result (λ t. string_bytes t ≡ short_text name.now id end.now) }
{
    let mut digits = itoa::Buffer::new();
    let mut text = String::with_capacity(alloc, ROOM)?;
    let id = digits.format(id);
    push_all(
        &mut text,
        &[BEGIN, name, "\",\"requestId\":", id, ",", TYPE, end],
    )?;
    Ok(text)
}
