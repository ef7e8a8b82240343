//! A caller of xfs_envelope.

ghost use Rattle.std.specs.Prelude.{MatchResult, IfOk};
ghost use Rattle.xfs_callers.specs.Received.{IsAcknowledgeOf, IsRefusalOf};
ghost use Rattle.xfs_envelope.specs.Commands.{command_in};

use std::alloc::Global;
use xfs_base::Memory;
use xfs_envelope::{Status, Why, acknowledge, read};

/// What a service says at once to a text: that its command was received, or that it is none.
pub fn answer(alloc: Global, text: &[u8]) -> Result<Vec<u8>, Memory>
    ensures { IfOk result (λ answer. MatchResult (command_in text.now) (IsAcknowledgeOf answer.items) (IsRefusalOf answer.items)) }
{
    match read(alloc, text) {
        Ok(command) => acknowledge(alloc, Some(&command.name), Some(command.id), None),
        Err(refused) if refused.why == Why::Memory => Err(Memory),
        Err(refused) => acknowledge(
            alloc,
            None,
            refused.id.map(u64::from),
            Some(Status::InvalidMessage),
        ),
    }
}
