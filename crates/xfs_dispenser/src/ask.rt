ghost use Rattle.std.specs.Prelude.{◌≡◌, Ok, Err, Some, None, IfOk};
ghost use Rattle.serde_json.specs.View.{view};
ghost use Rattle.xfs_dispenser.specs.Asks.{ask_of, denominate_of, dispense_of, set_storage_of, token_in};
ghost use Rattle.xfs_dispenser.specs.declared.ask.CashFail.TheVariants as CashFail;
ghost use Rattle.xfs_dispenser.specs.declared.command.CashCommand.TheVariants as CashCommand;

use crate::CashCommand;
use crate::named::{Named, read_storage};
use crate::notes::{Notes, read_notes};
use std::alloc::{AllocError, Global};
use xfs_base::Bytes;
use xfs_json::{Value, words};

/// What a command asks of the cash dispenser.
#[derive(Debug, Drop)]
pub enum CashAsk {
    /// Which notes a Dispense of this denomination would give.
    Denominate { notes: Notes },
    /// Notes are moved from the units to the transport, with the grant of a token. The token's
    /// text is kept as it came; None where there was none.
    Dispense { notes: Notes, token: Option<Bytes> },
    /// The notes on the transport are moved to the outlet.
    Present,
    /// The notes on the transport are moved to the rejected notes.
    Reject,
    /// The journal is read again, and transport and outlet are emptied.
    Reset,
    /// The notes in the outlet are moved to the retracted notes.
    Retract,
    /// The operator's exchange of notes begins.
    StartExchange,
    /// The operator added notes to the units.
    SetStorage { added: Named },
    /// The exchange ends.
    EndExchange,
}

/// Why a command isn't taken.
#[derive(Clone, Copy, Debug, PartialEq, Eq)]
pub enum CashFail {
    /// A member that the command needs is absent, or one that it has is of another shape.
    Shape,
    Memory,
}

impl From<AllocError> for CashFail {
    ghost use Rattle.std.specs.Prelude.{◌≡◌};
    ghost use Rattle.xfs_dispenser.specs.declared.ask.CashFail.TheVariants.{Memory};

    ghost from_gives = { λ _ fault. fault ≡ Memory };

    fn from(_error: AllocError) -> CashFail {
        CashFail::Memory
    }
}

/// Reads the payload of a command. Only the members that the command has are looked at. Memory is
/// taken for a token's text alone.
pub fn read_ask(alloc: Global, command: CashCommand, payload: &Value) -> Result<CashAsk, CashFail>
    ensures ok { IfOk result (λ ask. ask_of command (view payload.now) ≡ Ok ask) }
    ensures shape { result ≡ Err CashFail.Shape → ask_of command (view payload.now) ≡ Err CashFail.Shape }
    ensures memory { result ≡ Err CashFail.Memory → command ≡ CashCommand.Dispense }
{
    match command {
        CashCommand::Denominate => read_denominate(payload),
        CashCommand::Dispense => read_dispense(alloc, payload),
        CashCommand::Present => Ok(CashAsk::Present),
        CashCommand::Reject => Ok(CashAsk::Reject),
        CashCommand::Reset => Ok(CashAsk::Reset),
        CashCommand::Retract => Ok(CashAsk::Retract),
        CashCommand::StartExchange => Ok(CashAsk::StartExchange),
        CashCommand::SetStorage => read_set_storage(payload),
        CashCommand::EndExchange => Ok(CashAsk::EndExchange),
    }
}

fn read_denominate(payload: &Value) -> Result<CashAsk, CashFail>
    ensures { result ≡ denominate_of (view payload.now) }
{
    match read_notes(payload) {
        Some(notes) => Ok(CashAsk::Denominate { notes }),
        None => Err(CashFail::Shape),
    }
}

fn read_dispense(alloc: Global, payload: &Value) -> Result<CashAsk, CashFail>
    ensures ok { IfOk result (λ ask. dispense_of (view payload.now) ≡ Ok ask) }
    ensures shape { result ≡ Err CashFail.Shape → dispense_of (view payload.now) ≡ Err CashFail.Shape }
{
    let Some(notes) = read_notes(payload) else {
        return Err(CashFail::Shape);
    };
    let token = read_token(alloc, payload)?;
    Ok(CashAsk::Dispense { notes, token })
}

fn read_token(alloc: Global, payload: &Value) -> Result<Option<Bytes>, CashFail>
    ensures ok { IfOk result (λ token. token_in (view payload.now) ≡ Some token) }
    ensures shape { result ≡ Err CashFail.Shape → token_in (view payload.now) ≡ None }
{
    match words(payload, "token") {
        Ok(Some(text)) => Ok(Some(Bytes::new(text.as_bytes().to_vec(alloc)?))),
        Ok(None) => Ok(None),
        Err(_) => Err(CashFail::Shape),
    }
}

fn read_set_storage(payload: &Value) -> Result<CashAsk, CashFail>
    ensures { result ≡ set_storage_of (view payload.now) }
{
    match read_storage(payload) {
        Some(added) => Ok(CashAsk::SetStorage { added }),
        None => Err(CashFail::Shape),
    }
}
