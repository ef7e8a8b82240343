ghost use Rattle.std.specs.Prelude.{◌≡◌, true, IfOk};
ghost use Rattle.serde_json.specs.View.{view};
ghost use Rattle.xfs_envelope.specs.Messages.{framed};
ghost use Rattle.xfs_envelope.specs.Names.{is_name};
ghost use Rattle.xfs_client.specs.Commands.{IsWritable, ReadsAs, command_header, command_text};

use serde_json::{json, put};
use std::alloc::{AllocError, Global};
use xfs_base::Memory;
use xfs_json::{Map, Value};

/// The text of a command: its header with name, id and type, and its payload.
pub(crate) fn command(
    alloc: Global,
    name: &str,
    id: u64,
    payload: &Value,
) -> Result<Vec<u8>, Memory>
    requires { IsWritable (view payload.now) }
    ensures text { IfOk result (λ t. t.items ≡ command_text name.now id (view payload.now)) }
    ensures reads_back { IfOk result (λ t. is_name name.now ≡ true → ReadsAs t.items name.now id (view payload.now)) }
{
    let header = header(alloc, name, id)?;
    xfs_json::text(alloc, &with_payload(alloc, header, payload)?)
}

fn header(alloc: Global, name: &str, id: u64) -> Result<Value, AllocError>
    ensures { IfOk result (λ h. view h ≡ command_header name.now id) }
{
    json!(in alloc; {"name": name, "requestId": id, "type": "command"})
}

fn with_payload(alloc: Global, header: Value, payload: &Value) -> Result<Value, AllocError>
    ensures { IfOk result (λ v. view v ≡ framed (view header) (view payload.now)) }
{
    let mut members = Map::new(alloc);
    put(&mut members, alloc, "header", header)?;
    put(&mut members, alloc, "payload", payload.clone()?)?;
    Ok(Value::Object(members))
}
