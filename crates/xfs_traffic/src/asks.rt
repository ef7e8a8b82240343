//! Which commands are pending until they are answered, and what each asks.

ghost use Rattle.std.specs.Prelude.{◌≡◌, IfOk};
ghost use Rattle.serde_json.specs.Data.{Data};
ghost use Rattle.serde_json.specs.View.{view};
ghost use Rattle.xfs_base.specs.declared.moment.Service.TheVariants as Service;
ghost use Rattle.xfs_keyboard.specs.declared.command.KeysCommand.TheVariants.{DataEntry};
ghost use Rattle.xfs_traffic.specs.Jobs.{ask_seen};
ghost use Rattle.xfs_model.specs.Commands.{Asks, known_of, line_of};
ghost use Rattle.xfs_model.specs.declared.known.Known.TheVariants as Known;

use crate::job::Ask;
use std::alloc::Global;
use xfs_base::{Memory, Service};
use xfs_card::{CardCommand, read_card};
use xfs_common::CommonCommand;
use xfs_dispenser::{CashCommand, CashFail, read_ask};
use xfs_json::Value;
use xfs_keyboard::{KeysCommand, read_entry};
use xfs_model::Known;
use xfs_queue::Line;

/// The command of a name that is pending until it is answered. None for one that is done at once.
pub fn known_of(service: Service, name: &str) -> Option<Known>
    ensures { result ≡ known_of service name.now }
{
    match service {
        Service::Publisher => None,
        Service::Card => Some(Known::Card(CardCommand::named(name)?)),
        Service::Keys => Some(Known::Keys(KeysCommand::named(name)?)),
        Service::Cash => known_cash(name),
    }
}

fn known_cash(name: &str) -> Option<Known>
    ensures { result ≡ known_of Service.Cash name.now }
{
    match CommonCommand::named(name) {
        Some(command) => Some(Known::Nonce(command)),
        None => Some(Known::Cash(CashCommand::named(name)?)),
    }
}

/// The line on which a command waits.
pub(crate) fn line_of(known: Known) -> Line
    ensures { result ≡ line_of known }
{
    match known {
        Known::Nonce(_) => Line::Nonce,
        Known::Card(_) | Known::Keys(_) | Known::Cash(_) => Line::Device,
    }
}

/// What a command asks, or that its members are bad.
pub(crate) fn ask_of(alloc: Global, known: Known, payload: &Value) -> Result<Ask, Memory>
    ensures { IfOk result (λ ask. Asks known (view payload.now) (ask_seen ask)) }
{
    match known {
        Known::Nonce(command) => Ok(nonce_ask(command)),
        Known::Card(command) => Ok(card_ask(command, payload)),
        Known::Keys(KeysCommand::DataEntry) => Ok(entry_ask(payload)),
        Known::Cash(command) => cash_ask(alloc, command, payload),
    }
}

fn nonce_ask(command: CommonCommand) -> Ask
    ensures { (payload : Data) → Asks (Known.Nonce command) payload (ask_seen result) }
{
    match command {
        CommonCommand::GetCommandNonce => Ask::Issue,
        CommonCommand::ClearCommandNonce => Ask::Clear,
    }
}

fn card_ask(command: CardCommand, payload: &Value) -> Ask
    ensures { Asks (Known.Card command) (view payload.now) (ask_seen result) }
{
    match read_card(command, payload) {
        Ok(ask) => Ask::Card(ask),
        Err(_) => Ask::Bad,
    }
}

fn entry_ask(payload: &Value) -> Ask
    ensures { Asks (Known.Keys DataEntry) (view payload.now) (ask_seen result) }
{
    match read_entry(payload) {
        Ok(ask) => Ask::Entry(ask),
        Err(_) => Ask::Bad,
    }
}

fn cash_ask(alloc: Global, command: CashCommand, payload: &Value) -> Result<Ask, Memory>
    ensures { IfOk result (λ ask. Asks (Known.Cash command) (view payload.now) (ask_seen ask)) }
{
    match read_ask(alloc, command, payload) {
        Ok(ask) => Ok(Ask::Cash(ask)),
        Err(CashFail::Shape) => Ok(Ask::Bad),
        Err(CashFail::Memory) => Err(Memory),
    }
}
