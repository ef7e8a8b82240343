ghost use Rattle.std.specs.Prelude.{◌≡◌, ◌≢◌, ◌≤◌, None, Ok, Err, IfOk, IfErr, length};
ghost use Rattle.serde_json.specs.Data.{Data};
ghost use Rattle.serde_json.specs.View.{view};
ghost use Rattle.xfs_envelope.specs.Commands.{command_in, command_of, said, with_payload};
ghost use Rattle.xfs_envelope.specs.Fields.{id_at, needed};
ghost use Rattle.xfs_envelope.specs.declared.command.Why.TheVariants.{Memory};

use crate::fields::{
    has_right_version, header_of, is_of_type, name_at, needed_id_at, take_payload, timeout_at,
    usable,
};
use crate::short::short_command;
use crate::{Name, NameFault};
use std::alloc::Global;
use xfs_json::{JsonFault, Value, parse};

/// The longest message, in bytes.
pub const LONGEST_MESSAGE: usize = 65_536;

/// A command: its name, its request id, its timeout in milliseconds (0 means none) and its
/// payload, an object.
#[derive(Drop)]
pub struct Envelope {
    pub name: Name,
    pub id: u64,
    pub timeout: u32,
    pub payload: Value,
}

/// Why a message was refused, and its request id where the header has one from 1 to 2147483647.
#[derive(Clone, Copy, Debug, PartialEq, Eq)]
pub struct Refuse {
    pub why: Why,
    pub id: Option<u32>,
}

/// What is wrong with a message, in the order in which it is looked for: more than 65,536 bytes,
/// no JSON, no header, and then its type, name, request id, timeout, version and payload. Memory
/// may run out at any of these steps.
#[derive(Clone, Copy, Debug, PartialEq, Eq)]
pub enum Why {
    TooLong,
    NotJson,
    NoHeader,
    BadType,
    BadName,
    BadId,
    BadTimeout,
    BadVersion,
    BadPayload,
    Memory,
}

// What a header says of a command.
#[derive(Drop)]
struct Head {
    name: Name,
    id: u64,
    timeout: u32,
}

/// Reads a command.
pub fn read(alloc: Global, text: &[u8]) -> Result<Envelope, Refuse>
    ensures ok { IfOk result (λ e. command_in text.now ≡ Ok (said e)) }
    ensures refused { IfErr result (λ r. r.why ≢ Memory → command_in text.now ≡ Err r) }
{
    if text.len() > LONGEST_MESSAGE {
        return Err(without_id(Why::TooLong));
    }
    if let Some(command) = short_command(alloc, text) {
        return Ok(command);
    }
    read_value(alloc, text)
}

// Reads a command that is not too long.
fn read_value(alloc: Global, text: &[u8]) -> Result<Envelope, Refuse>
    requires { length text.now ≤ 65536 }
    ensures ok { IfOk result (λ e. command_in text.now ≡ Ok (said e)) }
    ensures refused { IfErr result (λ r. r.why ≢ Memory → command_in text.now ≡ Err r) }
{
    let value = match parse(alloc, text) {
        Ok(value) => value,
        Err(JsonFault::NotJson) => return Err(without_id(Why::NotJson)),
        Err(JsonFault::Memory) => return Err(without_id(Why::Memory)),
    };
    let Some(header) = header_of(&value) else {
        return Err(without_id(Why::NoHeader));
    };
    let found = needed_id_at(header);
    let id = usable(found);
    let head = match head_of(alloc, header, found) {
        Ok(head) => head,
        Err(why) => return Err(Refuse { why, id }),
    };
    match take_payload(alloc, value) {
        Some(payload) => Ok(Envelope {
            name: head.name,
            id: head.id,
            timeout: head.timeout,
            payload,
        }),
        None => Err(Refuse {
            why: Why::BadPayload,
            id,
        }),
    }
}

fn without_id(why: Why) -> Refuse
    ensures { result ≡ record { why = why; id = None } }
{
    Refuse { why, id: None }
}

// The fields of the header, which the payload follows. Its id is already found.
fn head_of(alloc: Global, header: &Value, id: Option<u64>) -> Result<Head, Why>
    requires id { id ≡ needed (id_at (view header.now)) }
    ensures ok { IfOk result (λ head. (d : Data) → command_of (view header.now) d ≡ with_payload head.name head.id head.timeout d) }
    ensures refused { IfErr result (λ why. why ≢ Memory → (d : Data) → command_of (view header.now) d ≡ Err why) }
{
    if !is_of_type(header, "command") {
        return Err(Why::BadType);
    }
    let name = match name_at(alloc, header) {
        Ok(Some(name)) => name,
        Ok(None) | Err(NameFault::Form) => return Err(Why::BadName),
        Err(NameFault::Memory) => return Err(Why::Memory),
    };
    let Some(id) = id else {
        return Err(Why::BadId);
    };
    let Some(timeout) = timeout_at(header) else {
        return Err(Why::BadTimeout);
    };
    if !has_right_version(header) {
        return Err(Why::BadVersion);
    }
    Ok(Head { name, id, timeout })
}
