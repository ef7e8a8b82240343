ghost use Rattle.std.specs.Prelude.{◌≡◌, None, IfOk, OnErr, IfSome, is_some};
ghost use Rattle.xfs_envelope.specs.Messages.{IsPayload};
ghost use Rattle.xfs_keyboard.specs.Entries.{IsKeyboard};
ghost use Rattle.xfs_keyboard.specs.Keyboard.{row, row_of, effect_of, payload_of};
ghost use Rattle.xfs_keyboard.specs.declared.state.KeyEvent.TheVariants.{Key};

use crate::EntryAsk;
use crate::entry::Entry;
use serde_json::Value;
use std::alloc::{AllocError, Global};
use std::marker::Model;
use xfs_base::Memory;
use xfs_mech::KeyName;

/// The state of the keyboard: idle, or an entry with what was asked for and the digits so far.
#[derive(Debug, Drop)]
pub struct KeyState {
    entry: Option<Entry>,
}

/// What befalls the keyboard.
#[derive(Debug, Drop)]
pub enum KeyEvent {
    /// A DataEntry begins, in the place of an entry that is there.
    Begin(EntryAsk),
    /// A key was pressed.
    Key(KeyName),
    /// The keyboard failed.
    Fault,
    /// The DataEntry that runs ends without a result of its own.
    Stop,
}

/// What follows from an event.
#[derive(Debug, Drop)]
pub enum KeyEffect {
    Nothing,
    /// The event Keyboard.KeyEvent tells this key.
    Told(KeyName),
    /// The event tells this key, and the DataEntry completes with `success` and this payload.
    Ended(KeyName, Value),
    /// The DataEntry completes with `hardwareError`.
    Failed,
}

impl Model for KeyState {
    ghost use Rattle.std.specs.declared.option.Option.{Option};
    ghost use Rattle.xfs_keyboard.specs.Entries.{Entry, IsKeyboard};

    ghost Value = { Option Entry };

    ghost view = { λ s. s.entry };

    ghost invariant = { λ s. IsKeyboard s.entry };
}

impl KeyState {
    /// Idle.
    pub fn new() -> KeyState
        ensures { result ≡ None }
    {
        KeyState { entry: None }
    }

    /// Whether there is an entry.
    pub fn active(&self) -> bool
        ensures active { result ≡ is_some self.now }
        ensures within { IsKeyboard self.now }
    {
        self.entry.is_some()
    }

    fn press(&mut self, alloc: Global, key: KeyName) -> Result<KeyEffect, AllocError>
        ensures row { IfOk result (λ effect. row_of self.old (Key key) ≡ row (effect_of effect) self.new) }
        ensures payload { IfOk result (λ effect. IfSome (payload_of (effect_of effect)) IsPayload) }
        ensures memory { OnErr result (self.new ≡ self.old) }
    {
        let Some(entry) = &mut self.entry else {
            return Ok(KeyEffect::Nothing);
        };
        if entry.ignores(key) {
            return Ok(KeyEffect::Nothing);
        }
        let Some(completion) = entry.ending(key) else {
            entry.type_key(key);
            return Ok(KeyEffect::Told(key));
        };
        let payload = entry.payload(alloc, key, completion)?;
        self.entry = None;
        Ok(KeyEffect::Ended(key, payload))
    }
}

/// What an event does to the keyboard. Want of memory leaves the state as it was.
pub fn step(alloc: Global, state: &mut KeyState, event: KeyEvent) -> Result<KeyEffect, Memory>
    ensures row { IfOk result (λ effect. row_of state.old event ≡ row (effect_of effect) state.new) }
    ensures memory { OnErr result (state.new ≡ state.old) }
    ensures payload { IfOk result (λ effect. IfSome (payload_of (effect_of effect)) IsPayload) }
{
    match event {
        KeyEvent::Begin(ask) => {
            state.entry = Some(Entry::new(alloc, ask)?);
            Ok(KeyEffect::Nothing)
        }
        KeyEvent::Key(key) => Ok(state.press(alloc, key)?),
        KeyEvent::Fault => Ok(match state.entry.take() {
            Some(_) => KeyEffect::Failed,
            None => KeyEffect::Nothing,
        }),
        KeyEvent::Stop => {
            state.entry = None;
            Ok(KeyEffect::Nothing)
        }
    }
}
