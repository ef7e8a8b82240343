ghost use Rattle.std.specs.Prelude.{IfOk};
ghost use Rattle.serde_json.specs.View.{view};
ghost use Rattle.xfs_envelope.specs.Messages.{IsPayload};

use crate::work::Work;
use serde_json::json;
use std::alloc::{AllocError, Global};
use xfs_envelope::{Code, acknowledge, completion, read};
use xfs_json::Value;

// A command of 300 bytes.
const DISPENSE: &str =
    "{\"header\":{\"name\":\"CashDispenser.Dispense\",\"requestId\":7,\"type\":\"command\"},\"payload\":{\"denomination\":{\"currencies\":{\"EUR\":50}},\"mix\":\"minimum\",\"token\":\"NONCE=254611E63B253,TOKENFORMAT=1,TOKENLENGTH=0145,DISPENSE1=50.00EUR,HMACSHA256=0000000000000000000000000000000000000000000000000000000000000000\"}}";

/// A command is read, and its acknowledge and its completion are written.
pub(crate) struct Dispense;

impl Work for Dispense {
    fn is_right(&self, alloc: Global) -> bool {
        match answered(alloc, DISPENSE.as_bytes()) {
            Some(bytes) => bytes == 290,
            None => false,
        }
    }
}

// How many bytes the acknowledge and the completion of a command have.
fn answered(alloc: Global, text: &[u8]) -> Option<usize> {
    let command = read(alloc, text).ok()?;
    let first = acknowledge(alloc, Some(&command.name), Some(command.id), None).ok()?;
    let payload = moved(alloc).ok()?;
    let last = completion(alloc, &command.name, command.id, Code::Success, &payload).ok()?;
    Some(first.len().wrapping_add(last.len()))
}

// The payload of a dispense of one note of EUR 50.
fn moved(alloc: Global) -> Result<Value, AllocError>
    ensures { IfOk result (λ v. IsPayload (view v)) }
{
    json!(in alloc; {"denomination": {"currencies": {"EUR": 50u64}, "values": {"unit3": 1u64}}})
}
