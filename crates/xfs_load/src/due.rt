//! What an ask is answered with where all goes well and nothing is told: known by its text, it need not be read.

ghost use Rattle.std.specs.Prelude.{◌≡◌, true, IfOk, IfSome};
ghost use Rattle.xfs_load.specs.Dues.{IsDueTo, TellsNothing};
ghost use Rattle.xfs_load.specs.declared.ask.Ask.{Ask as AskView};

use crate::ask::Ask;
use std::alloc::Global;
use xfs_base::Memory;
use xfs_envelope::{Code, Name, NameFault, acknowledge, completion};
use xfs_json::{Map, Value};

/// The acknowledge of an ask, and its completion with success and without members, where it has such a one.
#[derive(Drop)]
pub(crate) struct Due {
    acknowledge: Vec<u8>,
    success: Option<Vec<u8>>,
}

impl Due {
    /// What is due to an ask with this request id.
    pub fn new(alloc: Global, ask: Ask, id: u64) -> Result<Due, Memory>
        ensures { IfOk result (IsDueTo ask) }
    {
        let name = match Name::new(alloc, ask.name()) {
            Ok(name) => name,
            Err(NameFault::Memory) => return Err(Memory),
            Err(NameFault::Form) => unreachable!(),
        };
        Ok(Due {
            acknowledge: acknowledge(alloc, Some(&name), Some(id), None)?,
            success: success(alloc, ask, &name, id)?,
        })
    }

    /// Whether a frame is one of them.
    pub fn has(&self, frame: &[u8]) -> bool
        ensures { (ask : AskView) → IsDueTo ask self.now → result ≡ true → TellsNothing ask frame.now }
    {
        if is_same(&self.acknowledge, frame) {
            return true;
        }
        match &self.success {
            Some(text) => is_same(text, frame),
            None => false,
        }
    }
}

// Where a success has members, None.
fn success(alloc: Global, ask: Ask, name: &Name, id: u64) -> Result<Option<Vec<u8>>, Memory>
    ensures { IfOk result (λ found. IfSome found (λ text. TellsNothing ask text.items)) }
{
    match ask {
        Ask::Nonce | Ask::Dispense(_) => Ok(None),
        Ask::Present | Ask::StartExchange | Ask::Refill | Ask::EndExchange => {
            let text = completion(
                alloc,
                name,
                id,
                Code::Success,
                &Value::Object(Map::new(alloc)),
            )?;
            Ok(Some(text))
        }
    }
}

fn is_same(text: &[u8], frame: &[u8]) -> bool
    ensures { result ≡ true → text.now ≡ frame.now }
{
    text == frame
}
