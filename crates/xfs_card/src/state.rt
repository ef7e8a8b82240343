ghost use Rattle.std.specs.Prelude.{◌≡◌, IfOk, OnErr, IfSome};
ghost use Rattle.xfs_envelope.specs.Messages.{IsPayload};
ghost use Rattle.xfs_card.specs.Slot.{empty, is_awaited, is_at_exit};
ghost use Rattle.xfs_card.specs.Table.{row, row_of, read_row, move_row, reset_row, inserted_row, removed_row, fault_row, stop_row, effect_of, payload_of};

use crate::CardAsk;
use crate::payload::tracks_payload;
use crate::place::Place;
use std::alloc::{AllocError, Global};
use std::marker::Model;
use xfs_base::Memory;
use xfs_common::{ErrorCode, error_code, nothing};
use xfs_envelope::Code;
use xfs_json::Value;
use xfs_mech::Tracks;

/// The state of the card reader: where the card is, and the tracks that a Read asked for which
/// waits for a card. A Read waits only where there is no card.
#[derive(Debug, Drop)]
pub struct CardState {
    place: Place,
}

/// What befalls the card reader.
#[derive(Debug, Drop)]
pub enum CardEvent {
    /// A command begins.
    Begin(CardAsk),
    /// A card with these tracks was put in.
    Inserted(Tracks),
    /// The card was taken from the exit.
    Removed,
    /// The reader failed.
    Fault,
    /// The command that runs ends without a result of its own.
    Stop,
}

/// What follows from an event.
#[derive(Debug, Drop)]
pub enum CardEffect {
    Nothing,
    /// The event CardReader.InsertCardEvent with `{}`; the Read waits.
    AskInsert,
    /// The event CardReader.MediaInsertedEvent with `{}`; then the Read completes with `success`
    /// and this payload.
    Inserted(Value),
    /// The command completes with this code and payload.
    Done(Code, Value),
    /// The unsolicited CardReader.MediaRemovedEvent with `{}`, to every connection of the reader.
    Removed,
}

impl Model for CardState {
    ghost use Rattle.xfs_card.specs.Slot.{Slot, slot_of};

    ghost Value = { Slot };

    ghost view = { λ s. slot_of s.place };
}

impl CardState {
    /// No card, and no Read that waits.
    pub fn new() -> CardState
        ensures { result ≡ empty }
    {
        CardState {
            place: Place::Empty,
        }
    }

    /// Whether a Read waits for a card.
    pub fn awaits_card(&self) -> bool
        ensures { result ≡ is_awaited self.now }
    {
        matches!(&self.place, Place::Awaited { .. })
    }

    /// Whether the card is at the exit.
    pub fn at_exit(&self) -> bool
        ensures { result ≡ is_at_exit self.now }
    {
        matches!(&self.place, Place::AtExit)
    }

    fn begin_read(&mut self, alloc: Global, tracks: [bool; 3]) -> Result<CardEffect, AllocError>
        ensures row { IfOk result (λ effect. read_row tracks self.old ≡ row (effect_of effect) self.new) }
        ensures memory { OnErr result (self.new ≡ self.old) }
    {
        match &self.place {
            Place::Empty | Place::Awaited { .. } => {
                self.place = Place::Awaited { tracks };
                Ok(CardEffect::AskInsert)
            }
            Place::Inside(card) => {
                let payload = tracks_payload(alloc, tracks, card)?;
                Ok(CardEffect::Done(Code::Success, payload))
            }
            Place::AtExit => Ok(CardEffect::Done(Code::SequenceError, nothing(alloc))),
        }
    }

    fn begin_move(&mut self, alloc: Global) -> Result<CardEffect, Memory>
        ensures row { IfOk result (λ effect. move_row self.old ≡ row (effect_of effect) self.new) }
        ensures memory { OnErr result (self.new ≡ self.old) }
    {
        if let Place::Inside(_) = &self.place {
            self.place = Place::AtExit;
            return Ok(CardEffect::Done(Code::Success, nothing(alloc)));
        }
        let payload = error_code(alloc, ErrorCode::NoMedia.text())?;
        Ok(CardEffect::Done(Code::CommandErrorCode, payload))
    }

    fn begin_reset(&mut self, alloc: Global) -> CardEffect
        ensures row { reset_row self.old ≡ row (effect_of result) self.new }
    {
        if let Place::Inside(_) = &self.place {
            self.place = Place::AtExit;
        }
        CardEffect::Done(Code::Success, nothing(alloc))
    }

    fn insert(&mut self, alloc: Global, card: Tracks) -> Result<CardEffect, AllocError>
        ensures row { IfOk result (λ effect. inserted_row card self.old ≡ row (effect_of effect) self.new) }
        ensures memory { OnErr result (self.new ≡ self.old) }
    {
        let effect = match &self.place {
            Place::Empty => CardEffect::Nothing,
            Place::Awaited { tracks } => {
                CardEffect::Inserted(tracks_payload(alloc, *tracks, &card)?)
            }
            Place::Inside(_) | Place::AtExit => return Ok(CardEffect::Nothing),
        };
        self.place = Place::Inside(card);
        Ok(effect)
    }

    fn remove(&mut self) -> CardEffect
        ensures row { removed_row self.old ≡ row (effect_of result) self.new }
    {
        match &self.place {
            Place::AtExit => {
                self.place = Place::Empty;
                CardEffect::Removed
            }
            _ => CardEffect::Nothing,
        }
    }

    fn fail(&mut self, alloc: Global) -> CardEffect
        ensures row { fault_row self.old ≡ row (effect_of result) self.new }
    {
        match &self.place {
            Place::Awaited { .. } => {
                self.place = Place::Empty;
                CardEffect::Done(Code::HardwareError, nothing(alloc))
            }
            _ => CardEffect::Nothing,
        }
    }

    fn stop(&mut self) -> CardEffect
        ensures row { stop_row self.old ≡ row (effect_of result) self.new }
    {
        if let Place::Awaited { .. } = &self.place {
            self.place = Place::Empty;
        }
        CardEffect::Nothing
    }
}

/// What an event does to the card reader. Want of memory leaves the state as it was.
pub fn step(alloc: Global, state: &mut CardState, event: CardEvent) -> Result<CardEffect, Memory>
    ensures row { IfOk result (λ effect. row_of state.old event ≡ row (effect_of effect) state.new) }
    ensures memory { OnErr result (state.new ≡ state.old) }
    ensures payload { IfOk result (λ effect. IfSome (payload_of (effect_of effect)) IsPayload) }
{
    match event {
        CardEvent::Begin(CardAsk::Read { tracks }) => Ok(state.begin_read(alloc, tracks)?),
        CardEvent::Begin(CardAsk::Move) => state.begin_move(alloc),
        CardEvent::Begin(CardAsk::Reset) => Ok(state.begin_reset(alloc)),
        CardEvent::Inserted(card) => Ok(state.insert(alloc, card)?),
        CardEvent::Removed => Ok(state.remove()),
        CardEvent::Fault => Ok(state.fail(alloc)),
        CardEvent::Stop => Ok(state.stop()),
    }
}
