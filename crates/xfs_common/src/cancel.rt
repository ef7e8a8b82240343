ghost use Rattle.std.specs.Prelude.{◌≡◌, Ok, Err, Some, None, IfOk};
ghost use Rattle.serde_json.specs.View.{view, items_view};
ghost use Rattle.xfs_json.specs.Members.{whole_in};
ghost use Rattle.xfs_common.specs.Cancel.{ids_of, request_ids, named_by};
ghost use Rattle.xfs_common.specs.declared.cancel.ReadFail.TheVariants as ReadFail;

use serde_json::Value;
use std::alloc::{AllocError, Global};
use xfs_base::Numbers;

/// Which of its connection's commands a Common.Cancel names.
#[derive(Debug, Drop)]
pub enum CancelWhat {
    /// Each that is pending.
    All,
    /// Those with these request ids.
    These(Numbers),
}

/// Why a payload isn't taken.
#[derive(Clone, Copy, Debug, PartialEq, Eq)]
pub enum ReadFail {
    /// `requestIds` is there, and isn't a list of whole numbers from 1 to 2147483647.
    Shape,
    Memory,
}

/// Reads the payload of Common.Cancel. An absent or null `requestIds` names every command.
pub fn read_cancel(alloc: Global, payload: &Value) -> Result<CancelWhat, ReadFail>
    ensures ok { IfOk result (λ what. request_ids (view payload.now) ≡ Ok (named_by what)) }
    ensures shape { result ≡ Err ReadFail.Shape → request_ids (view payload.now) ≡ Err record {} }
{
    match payload.get("requestIds") {
        Some(member) if !member.is_null() => match member.as_array() {
            Some(items) => Ok(CancelWhat::These(numbers_of(alloc, items)?)),
            None => Err(ReadFail::Shape),
        },
        _ => Ok(CancelWhat::All),
    }
}

fn numbers_of(alloc: Global, items: &[Value]) -> Result<Numbers, ReadFail>
    ensures ok { IfOk result (λ ids. ids_of (items_view items.now) ≡ Some ids) }
    ensures shape { result ≡ Err ReadFail.Shape → ids_of (items_view items.now) ≡ None }
{
    let mut ids = Vec::with_capacity(alloc, items.len())?;
    for item in items {
        match id_of(item) {
            Some(id) => ids.push_reserved(id),
            None => return Err(ReadFail::Shape),
        }
    }
    Ok(Numbers::new(ids))
}

fn id_of(item: &Value) -> Option<u64>
    ensures { result ≡ whole_in 1 2147483647 (view item.now) }
{
    match item.as_u64() {
        Some(id) if 1 <= id && id <= 2_147_483_647 => Some(id),
        _ => None,
    }
}

impl From<AllocError> for ReadFail {
    ghost use Rattle.std.specs.Prelude.{◌≡◌};
    ghost use Rattle.xfs_common.specs.declared.cancel.ReadFail.TheVariants.{Memory};

    ghost from_gives = { λ _ fault. fault ≡ Memory };

    fn from(_: AllocError) -> ReadFail {
        ReadFail::Memory
    }
}
