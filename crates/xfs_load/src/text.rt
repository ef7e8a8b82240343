//! The texts that the client says.

ghost use Rattle.std.specs.Prelude.{◌≡◌, ◌++◌, codes, IfOk, OnOk};
ghost use Rattle.xfs_load.specs.Texts.{command_text, dispense_payload, headed_text, refill_payload, text_of, token_member};

use crate::ask::Ask;
use itoa::Buffer;
use std::alloc::{AllocError, Global};
use xfs_base::Bytes;

// Room for every text but one of a long token.
const ROOM: usize = 512;

/// The text of an ask with this request id, and of a Dispense with this token, if there is one.
pub(crate) fn text_of(
    alloc: Global,
    ask: Ask,
    id: u64,
    token: &Option<Bytes>,
) -> Result<Vec<u8>, AllocError>
    ensures { IfOk result (λ text. text.items ≡ text_of ask id token.now) }
{
    match ask {
        Ask::Nonce => plain_text(alloc, ask.name(), id),
        Ask::Dispense(amount) => dispense(alloc, id, amount, token),
        Ask::Present => plain_text(alloc, ask.name(), id),
        Ask::StartExchange => plain_text(alloc, ask.name(), id),
        Ask::Refill => refill(alloc, id),
        Ask::EndExchange => plain_text(alloc, ask.name(), id),
    }
}

// A command without members.
fn plain_text(alloc: Global, name: &[u8], id: u64) -> Result<Vec<u8>, AllocError>
    ensures { IfOk result (λ text. text.items ≡ command_text name.now id (codes "{}")) }
{
    let mut text = text_head(alloc, name, id)?;
    text.extend_from_slice(b"{}}")?;
    Ok(text)
}

fn refill(alloc: Global, id: u64) -> Result<Vec<u8>, AllocError>
    ensures { IfOk result (λ text. text.items ≡ command_text (codes "Storage.SetStorage") id refill_payload) }
{
    let mut text = text_head(alloc, b"Storage.SetStorage", id)?;
    text.extend_from_slice(
        b"{\"storage\":{\"unit1\":{\"added\":4},\"unit2\":{\"added\":6},\"unit3\":{\"added\":4}}}}",
    )?;
    Ok(text)
}

fn dispense(
    alloc: Global,
    id: u64,
    amount: u32,
    token: &Option<Bytes>,
) -> Result<Vec<u8>, AllocError>
    ensures { IfOk result (λ text. text.items ≡ command_text (codes "CashDispenser.Dispense") id (dispense_payload amount token.now)) }
{
    let mut text = text_head(alloc, b"CashDispenser.Dispense", id)?;
    text.extend_from_slice(b"{\"denomination\":{\"currencies\":{\"EUR\":")?;
    text.extend_from_slice(Buffer::new().format(amount).as_bytes())?;
    text.extend_from_slice(b"}},\"mix\":\"minimum\"")?;
    push_token(&mut text, token)?;
    text.extend_from_slice(b"}}")?;
    Ok(text)
}

// Adds the member of a token, if there is one.
fn push_token(text: &mut Vec<u8>, token: &Option<Bytes>) -> Result<(), AllocError>
    ensures { OnOk result (text.new.items ≡ text.old.items ++ token_member token.now) }
{
    if let Some(token) = token {
        text.extend_from_slice(b",\"token\":\"")?;
        text.extend_from_slice(token.list())?;
        text.extend_from_slice(b"\"")?;
    }
    Ok(())
}

// The text of a command up to its payload.
fn text_head(alloc: Global, name: &[u8], id: u64) -> Result<Vec<u8>, AllocError>
    ensures { IfOk result (λ text. text.items ≡ headed_text name.now id) }
{
    let mut text = Vec::with_capacity(alloc, ROOM)?;
    text.extend_from_slice(b"{\"header\":{\"name\":\"")?;
    text.extend_from_slice(name)?;
    text.extend_from_slice(b"\",\"requestId\":")?;
    text.extend_from_slice(Buffer::new().format(id).as_bytes())?;
    text.extend_from_slice(b",\"type\":\"command\"},\"payload\":")?;
    Ok(text)
}
