ghost use Rattle.std.specs.Prelude.{◌≡◌, ◌<◌, ◌^◌, ◌++◌, flat_map, string_bytes, Some, IsTrue, option_copied, IfSome, IfOk, OnOk};
ghost use Rattle.serde_json.specs.Data.{Data};
ghost use Rattle.serde_json.specs.View.{view};
ghost use Rattle.serde_json.specs.Written.{compact_text};
ghost use Rattle.xfs_envelope.specs.Codes.{code_text};
ghost use Rattle.xfs_envelope.specs.Messages.{acknowledge_header, event_header, completion_header, unsolicited_header, headed, framed, IsPayload};
ghost use Rattle.xfs_envelope.specs.Names.{is_name};
ghost use Rattle.xfs_envelope.specs.Parts.{frame, name_part, id_part, status_part};
ghost use Rattle.xfs_envelope.specs.Readable.{IsPayloadText, IsReadable};
ghost use Rattle.xfs_envelope.specs.Replies.{Reply, reply_in};
ghost use Rattle.xfs_json.specs.Reading.{reading};

use crate::{Code, Name, Status};
use std::alloc::{AllocError, Global};
use xfs_base::Memory;
use xfs_json::Value;

// No header with its frame is longer: its name has at most 129 bytes, its code 22, its id 20.
const ROOM: usize = 320;

/// The text that a command was received: with its name and id where they are known, and with a
/// status where it was not accepted.
pub fn acknowledge(
    alloc: Global,
    name: Option<&Name>,
    id: Option<u64>,
    status: Option<Status>,
) -> Result<Vec<u8>, Memory>
    ensures text { IfOk result (λ t. t.items
        ≡ compact_text (headed (acknowledge_header (option_copied name.entry) id status))) }
    ensures reads_back { IfOk result (λ t. reply_in t.items
        ≡ Some (Reply.acknowledge id (option_copied name.entry) status)) }
{
    let mut text = String::with_capacity(alloc, ROOM)?;
    text.push_str("{\"header\":{")?;
    push_name(&mut text, name)?;
    push_id(&mut text, id)?;
    push_status(&mut text, status)?;
    text.push_str("\"type\":\"acknowledge\",\"version\":\"2.0\"}}")?;
    Ok(text.into_bytes())
}

/// The text that something happened while the command with this id was carried out.
pub fn event(alloc: Global, name: &str, id: u64, payload: &Value) -> Result<Vec<u8>, Memory>
    requires name { IsTrue (is_name name.now) }
    requires payload { IsPayload (view payload.now) }
    ensures text { IfOk result (λ t. t.items
        ≡ compact_text (framed (event_header name.now id) (view payload.now))) }
    ensures reads_back { IfOk result (λ t. reply_in t.items
        ≡ Some (Reply.event id name.now (view payload.now))) }
{
    Ok(new_event(alloc, name, id, payload)?.into_bytes())
}

/// The text that the command with this name and id ended with this code.
pub fn completion(
    alloc: Global,
    name: &Name,
    id: u64,
    code: Code,
    payload: &Value,
) -> Result<Vec<u8>, Memory>
    requires payload { IsPayload (view payload.now) }
    ensures text { IfOk result (λ t. t.items
        ≡ compact_text (framed (completion_header name.now id code) (view payload.now))) }
    ensures reads_back { IfOk result (λ t. reply_in t.items
        ≡ Some (Reply.completion id name.now code (view payload.now))) }
{
    let text = payload_text(alloc, payload)?;
    completion_of_text(alloc, name, id, code, &text)
}

/// The text that the command with this name and id ended with this code, of a payload that is given by its compact text.
/// Nothing is said of what becomes of a text that is no payload's.
pub fn completion_of_text(
    alloc: Global,
    name: &Name,
    id: u64,
    code: Code,
    payload: &str,
) -> Result<Vec<u8>, Memory>
    ensures text { IfOk result (λ t. (d : Data) → IsPayloadText d payload.now → t.items
        ≡ compact_text (framed (completion_header name.now id code) d)) }
    ensures reads_back { IfOk result (λ t. (d : Data) → IsPayloadText d payload.now → reply_in t.items
        ≡ Some (Reply.completion id name.now code d)) }
{
    Ok(new_completion(alloc, name.as_str(), id, code, payload)?.into_bytes())
}

/// The text that something happened which belongs to no command.
pub fn unsolicited(alloc: Global, name: &str, payload: &Value) -> Result<Vec<u8>, Memory>
    requires name { IsTrue (is_name name.now) }
    requires payload { IsPayload (view payload.now) }
    ensures text { IfOk result (λ t. t.items
        ≡ compact_text (framed (unsolicited_header name.now) (view payload.now))) }
    ensures reads_back { IfOk result (λ t. reply_in t.items
        ≡ Some (Reply.unsolicited name.now (view payload.now))) }
{
    Ok(new_unsolicited(alloc, name, payload)?.into_bytes())
}

fn new_completion(
    alloc: Global,
    name: &str,
    id: u64,
    code: Code,
    payload: &str,
) -> Result<String, AllocError>
    requires name { IsTrue (is_name name.now) }
    ensures { IfOk result (λ t. string_bytes t
        ≡ frame (compact_text (completion_header name.now id code)) payload.now) }
{
    let mut digits = itoa::Buffer::new();
    let header = [
        "{\"completionCode\":\"",
        text_of(&code),
        "\",\"name\":\"",
        name,
        "\",\"requestId\":",
        digits.format(id),
        ",\"type\":\"completion\",\"version\":\"2.0\"}",
    ];
    framed(alloc, &header, payload)
}

// The code's text for as long as the code is borrowed, as it stands among the parts of a header.
fn text_of(code: &Code) -> &str
    ensures { result.now ≡ code_text code.now }
{
    code.text()
}

fn new_event(alloc: Global, name: &str, id: u64, payload: &Value) -> Result<String, AllocError>
    requires name { IsTrue (is_name name.now) }
    requires payload { IsPayload (view payload.now) }
    ensures text { IfOk result (λ t. string_bytes t
        ≡ compact_text (framed (event_header name.now id) (view payload.now))) }
    ensures reads { IfOk result (λ t. reading (string_bytes t)
        ≡ Some (framed (event_header name.now id) (view payload.now))) }
{
    let mut digits = itoa::Buffer::new();
    let header = [
        "{\"name\":\"",
        name,
        "\",\"requestId\":",
        digits.format(id),
        ",\"type\":\"event\",\"version\":\"2.0\"}",
    ];
    new_framed(alloc, &header, payload)
}

fn new_unsolicited(alloc: Global, name: &str, payload: &Value) -> Result<String, AllocError>
    requires name { IsTrue (is_name name.now) }
    requires payload { IsPayload (view payload.now) }
    ensures text { IfOk result (λ t. string_bytes t
        ≡ compact_text (framed (unsolicited_header name.now) (view payload.now))) }
    ensures reads { IfOk result (λ t. reading (string_bytes t)
        ≡ Some (framed (unsolicited_header name.now) (view payload.now))) }
{
    let header = [
        "{\"name\":\"",
        name,
        "\",\"type\":\"unsolicited\",\"version\":\"2.0\"}",
    ];
    new_framed(alloc, &header, payload)
}

fn push_name(text: &mut String, name: Option<&Name>) -> Result<(), AllocError>
    ensures text { OnOk result (string_bytes text.new
        ≡ string_bytes text.old ++ name_part (option_copied name.entry)) }
    ensures name { OnOk result (IfSome (option_copied name.entry) (λ n. IsTrue (is_name n))) }
{
    match name {
        Some(name) => push_all(text, &["\"name\":\"", name.as_str(), "\","]),
        None => Ok(()),
    }
}

fn push_id(text: &mut String, id: Option<u64>) -> Result<(), AllocError>
    ensures text { OnOk result (string_bytes text.new ≡ string_bytes text.old ++ id_part id) }
    ensures id { OnOk result (IfSome id (λ n. n < 2 ^ 64)) }
{
    match id {
        Some(id) => {
            let mut digits = itoa::Buffer::new();
            push_all(text, &["\"requestId\":", digits.format(id), ","])
        }
        None => Ok(()),
    }
}

fn push_status(text: &mut String, status: Option<Status>) -> Result<(), AllocError>
    ensures { OnOk result (string_bytes text.new ≡ string_bytes text.old ++ status_part status) }
{
    match status {
        Some(status) => push_all(text, &["\"status\":\"", status.text(), "\","]),
        None => Ok(()),
    }
}

pub(crate) fn push_all(text: &mut String, parts: &[&str]) -> Result<(), AllocError>
    ensures { OnOk result (string_bytes text.new
        ≡ string_bytes text.old ++ flat_map (λ p. p.now) parts.now) }
{
    for part in parts {
        text.push_str(part)?;
    }
    Ok(())
}

// The text of a message, whose header is given by the parts of its text.
fn new_framed(alloc: Global, header: &[&str], payload: &Value) -> Result<String, AllocError>
    requires payload { IsPayload (view payload.now) }
    ensures text { IfOk result (λ t. string_bytes t
        ≡ frame (flat_map (λ p. p.now) header.now) (compact_text (view payload.now))) }
    ensures payload { OnOk result (IsReadable (view payload.now)) }
{
    let text = payload_text(alloc, payload)?;
    framed(alloc, header, &text)
}

fn payload_text(alloc: Global, payload: &Value) -> Result<String, AllocError>
    requires { IsPayload (view payload.now) }
    ensures { IfOk result (λ t. IsPayloadText (view payload.now) (string_bytes t)) }
{
    let text = payload.to_string(alloc)?;
    Ok(text)
}

// The text of a message by the texts of its header, in parts, and of its payload.
fn framed(alloc: Global, header: &[&str], payload: &str) -> Result<String, AllocError>
    ensures { IfOk result (λ t. string_bytes t ≡ frame (flat_map (λ p. p.now) header.now) payload.now) }
{
    let mut text = String::with_capacity(alloc, ROOM.saturating_add(payload.len()))?;
    text.push_str("{\"header\":")?;
    push_all(&mut text, header)?;
    push_all(&mut text, &[",\"payload\":", payload, "}"])?;
    Ok(text)
}
