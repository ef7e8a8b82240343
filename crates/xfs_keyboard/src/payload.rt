ghost use Rattle.std.specs.Prelude.{◌≡◌, ◌++◌, length, vec_len, IfOk};
ghost use Rattle.serde_json.specs.View.{view, items_view};
ghost use Rattle.xfs_keyboard.specs.Entries.{entry_payload, pin_keys, listed, pin_key};

use serde_json::{Value, json, put};
use std::alloc::{AllocError, Global};
use xfs_json::Map;
use xfs_mech::KeyName;

/// The payload of a DataEntry that ended with these digits.
pub(crate) fn entry_payload(
    alloc: Global,
    completion: &str,
    digits: &[KeyName],
    last: Option<KeyName>,
) -> Result<Value, AllocError>
    ensures { IfOk result (λ v. view v ≡ entry_payload completion.now (digits.now ++ listed last)) }
{
    let completion = Value::try_from_str(alloc, completion)?;
    let keys = pin_keys(alloc, digits, last)?;
    let count = keys.len() as u64;
    let mut members = Map::new(alloc);
    put(&mut members, alloc, "completion", completion)?;
    put(&mut members, alloc, "keys", Value::from(count))?;
    put(&mut members, alloc, "pinKeys", Value::Array(keys))?;
    Ok(Value::Object(members))
}

fn pin_keys(
    alloc: Global,
    digits: &[KeyName],
    last: Option<KeyName>,
) -> Result<Vec<Value>, AllocError>
    ensures keys { IfOk result (λ keys. items_view keys.items ≡ pin_keys (digits.now ++ listed last)) }
    ensures count { IfOk result (λ keys. vec_len keys ≡ length (digits.now ++ listed last)) }
{
    let mut keys = Vec::with_capacity(alloc, digits.len() + 1)?;
    for digit in digits {
        keys.push_reserved(pin_key(alloc, *digit)?);
    }
    let Some(digit) = last else {
        return Ok(keys);
    };
    keys.push_reserved(pin_key(alloc, digit)?);
    Ok(keys)
}

fn pin_key(alloc: Global, digit: KeyName) -> Result<Value, AllocError>
    ensures { IfOk result (λ v. view v ≡ pin_key digit) }
{
    json!(in alloc; {"digit": digit.name()})
}
