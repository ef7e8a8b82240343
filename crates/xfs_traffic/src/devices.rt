//! What touches of the world do to the card reader and the keyboard, and what their running command hears.

ghost use Rattle.std.specs.Prelude.{◌≡◌, None, OnErr, OnOk, Some, find, option_map};
ghost use Rattle.xfs_queue.specs.Commands.{is_running, ticket_of};
ghost use Rattle.xfs_card.specs.Slot.{empty};
ghost use Rattle.xfs_card.specs.declared.state.CardEvent.TheVariants as CardEvent;
ghost use Rattle.xfs_keyboard.specs.declared.state.KeyEvent.TheVariants as KeyEvent;
ghost use Rattle.xfs_traffic.specs.Changes.{CardFails, CardTakes, KeysFail, KeysTake, RunningHas};

use crate::job::Outcome;
use crate::notices::{card_inserted, card_removed, key_pressed};
use crate::queues::Queues;
use crate::traffic::Traffic;
use std::alloc::Global;
use xfs_base::{Memory, Service};
use xfs_card::{CardEffect, CardEvent, CardState};
use xfs_common::nothing;
use xfs_envelope::Code;
use xfs_keyboard::{KeyEffect, KeyEvent, KeyState};
use xfs_mech::{KeyName, Tracks};
use xfs_queue::Ticket;

/// The card slot and the key pad.
#[derive(Drop)]
pub struct Devices {
    pub slot: CardState,
    pub keypad: KeyState,
}

impl Devices {
    /// No card, and no entry.
    pub fn new() -> Devices
        ensures { result ≡ record { slot = empty; keypad = None } }
    {
        Devices {
            slot: CardState::new(),
            keypad: KeyState::new(),
        }
    }
}

/// A card is put in. The event that tells it is sent first, and taken back where nothing is told.
pub fn put_card(
    alloc: Global,
    slot: &mut CardState,
    traffic: &mut Traffic,
    card: Tracks,
) -> Result<(), Memory>
    ensures touches { OnOk result (CardTakes (CardEvent.Inserted card) slot.old slot.new traffic.old traffic.new) }
    ensures memory { OnErr result ((slot.new ≡ slot.old) × (traffic.new ≡ traffic.old)) }
{
    match traffic.queues.at(Service::Card).running() {
        Some(ticket) => put_card_for(alloc, slot, traffic, ticket, card),
        None => {
            xfs_card::step(alloc, slot, CardEvent::Inserted(card))?;
            Ok(())
        }
    }
}

// A card is put into the slot while a command runs.
fn put_card_for(
    alloc: Global,
    slot: &mut CardState,
    traffic: &mut Traffic,
    ticket: Ticket,
    card: Tracks,
) -> Result<(), Memory>
    requires { Some ticket ≡ option_map ticket_of (find (λ a. is_running a.stage) traffic.old.queues.card) }
    ensures touches { OnOk result (CardTakes (CardEvent.Inserted card) slot.old slot.new traffic.old traffic.new) }
    ensures memory { OnErr result ((slot.new ≡ slot.old) × (traffic.new ≡ traffic.old)) }
{
    // The clause of `commands` tells that the ids differ.
    let _kept = traffic.queues.at(Service::Card).commands();
    let frame = card_inserted(alloc, ticket.id)?;
    traffic
        .connections
        .send(Service::Card, ticket.client, frame)?;
    let Ok(effect) = xfs_card::step(alloc, slot, CardEvent::Inserted(card)) else {
        traffic.connections.unsend(Service::Card, ticket.client);
        return Err(Memory);
    };
    match effect {
        CardEffect::Inserted(payload) => {
            let outcome = Outcome::new(Code::Success, payload);
            traffic.queues.set_result(Service::Card, ticket, outcome);
            Ok(())
        }
        CardEffect::Nothing => {
            traffic.connections.unsend(Service::Card, ticket.client);
            Ok(())
        }
        _ => unreachable!(),
    }
}

/// The card is taken from the exit. What announces it is sent first.
pub fn take_card(alloc: Global, slot: &mut CardState, traffic: &mut Traffic) -> Result<(), Memory>
    ensures touches { OnOk result (CardTakes CardEvent.Removed slot.old slot.new traffic.old traffic.new) }
    ensures queues { traffic.new.queues ≡ traffic.old.queues }
    ensures memory { OnErr result ((slot.new ≡ slot.old) × (traffic.new ≡ traffic.old)) }
{
    // The clause of `commands` tells that the ids differ.
    let _kept = traffic.queues.at(Service::Card).commands();
    if !slot.at_exit() {
        xfs_card::step(alloc, slot, CardEvent::Removed)?;
        return Ok(());
    }
    let frame = card_removed(alloc)?;
    traffic
        .connections
        .announce(alloc, Service::Card, frame.list())?;
    match xfs_card::step(alloc, slot, CardEvent::Removed) {
        Ok(_) => Ok(()),
        Err(Memory) => {
            traffic.connections.take_back(Service::Card);
            Err(Memory)
        }
    }
}

/// The card reader fails.
pub fn fail_card(alloc: Global, slot: &mut CardState, queues: &mut Queues) -> Result<(), Memory>
    ensures touches { OnOk result (CardFails slot.old slot.new queues.old queues.new) }
    ensures memory { OnErr result ((slot.new ≡ slot.old) × (queues.new ≡ queues.old)) }
{
    // The clause of `commands` tells that the ids differ.
    let _kept = queues.at(Service::Card).commands();
    match xfs_card::step(alloc, slot, CardEvent::Fault)? {
        CardEffect::Done(code, payload) => {
            end_running(queues, Service::Card, Outcome::new(code, payload));
            Ok(())
        }
        CardEffect::Nothing => Ok(()),
        _ => unreachable!(),
    }
}

/// A key is pressed. The event that tells it is sent first, and taken back where nothing is told.
pub fn press_key(
    alloc: Global,
    keypad: &mut KeyState,
    traffic: &mut Traffic,
    key: KeyName,
) -> Result<(), Memory>
    ensures touches { OnOk result (KeysTake (KeyEvent.Key key) keypad.old keypad.new traffic.old traffic.new) }
    ensures memory { OnErr result ((keypad.new ≡ keypad.old) × (traffic.new ≡ traffic.old)) }
{
    match traffic.queues.at(Service::Keys).running() {
        Some(ticket) => press_key_for(alloc, keypad, traffic, ticket, key),
        None => {
            xfs_keyboard::step(alloc, keypad, KeyEvent::Key(key))?;
            Ok(())
        }
    }
}

// A key is pressed while a command runs.
fn press_key_for(
    alloc: Global,
    keypad: &mut KeyState,
    traffic: &mut Traffic,
    ticket: Ticket,
    key: KeyName,
) -> Result<(), Memory>
    requires { Some ticket ≡ option_map ticket_of (find (λ a. is_running a.stage) traffic.old.queues.keys) }
    ensures touches { OnOk result (KeysTake (KeyEvent.Key key) keypad.old keypad.new traffic.old traffic.new) }
    ensures memory { OnErr result ((keypad.new ≡ keypad.old) × (traffic.new ≡ traffic.old)) }
{
    // The clause of `commands` tells that the ids differ.
    let _kept = traffic.queues.at(Service::Keys).commands();
    let frame = key_pressed(alloc, ticket.id, key)?;
    traffic
        .connections
        .send(Service::Keys, ticket.client, frame)?;
    let Ok(effect) = xfs_keyboard::step(alloc, keypad, KeyEvent::Key(key)) else {
        traffic.connections.unsend(Service::Keys, ticket.client);
        return Err(Memory);
    };
    match effect {
        KeyEffect::Told(_) => Ok(()),
        KeyEffect::Ended(_, payload) => {
            let outcome = Outcome::new(Code::Success, payload);
            traffic.queues.set_result(Service::Keys, ticket, outcome);
            Ok(())
        }
        KeyEffect::Nothing => {
            traffic.connections.unsend(Service::Keys, ticket.client);
            Ok(())
        }
        KeyEffect::Failed => unreachable!(),
    }
}

/// The keyboard fails.
pub fn fail_keys(alloc: Global, keypad: &mut KeyState, queues: &mut Queues) -> Result<(), Memory>
    ensures touches { OnOk result (KeysFail keypad.old keypad.new queues.old queues.new) }
    ensures memory { OnErr result ((keypad.new ≡ keypad.old) × (queues.new ≡ queues.old)) }
{
    // The clause of `commands` tells that the ids differ.
    let _kept = queues.at(Service::Keys).commands();
    match xfs_keyboard::step(alloc, keypad, KeyEvent::Fault)? {
        KeyEffect::Failed => {
            let outcome = Outcome::new(Code::HardwareError, nothing(alloc));
            end_running(queues, Service::Keys, outcome);
            Ok(())
        }
        KeyEffect::Nothing => Ok(()),
        _ => unreachable!(),
    }
}

// The command that runs at a service has its result, if one runs.
fn end_running(queues: &mut Queues, service: Service, outcome: Outcome)
    ensures { RunningHas service outcome queues.old queues.new }
{
    match queues.at(service).running() {
        Some(ticket) => queues.set_result(service, ticket, outcome),
        None => {}
    }
}
