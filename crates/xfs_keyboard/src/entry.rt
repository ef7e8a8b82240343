ghost use Rattle.std.specs.Prelude.{◌≡◌, ◌≤◌, ◌==◌, ◌++◌, [], take, length, false, is_some, IfOk, option_map};
ghost use Rattle.serde_json.specs.View.{view};
ghost use Rattle.xfs_envelope.specs.Messages.{IsPayload};
ghost use Rattle.xfs_keyboard.specs.Entries.{HasFewDigits, is_ignored, typed, completion, entry_payload, listed};
ghost use Rattle.xfs_keyboard.specs.Keys.{is_digit};

use crate::EntryAsk;
use crate::keys::is_digit;
use crate::payload::entry_payload;
use serde_json::Value;
use std::alloc::{AllocError, Global};
use std::marker::Model;
use xfs_mech::KeyName;

/// An entry: what was asked for, and the digits so far. It has room for all that were asked for.
#[derive(Debug, Drop)]
pub(crate) struct Entry {
    ask: EntryAsk,
    digits: Vec<KeyName>,
}

impl Model for Entry {
    ghost use Rattle.std.specs.Prelude.{◌≤◌, length, vec_capacity};
    ghost use Rattle.xfs_keyboard.specs.Entries.{Entry as Seen};

    ghost Value = { Seen };

    ghost view = { λ e. record { ask = e.ask; digits = e.digits.items } };

    ghost invariant = { λ e. (length e.digits.items ≤ e.ask.max_len) × (e.ask.max_len ≤ vec_capacity e.digits) };
}

impl Entry {
    /// The entry that was asked for, without digits.
    pub(crate) fn new(alloc: Global, ask: EntryAsk) -> Result<Entry, AllocError>
        ensures { IfOk result (λ e. e ≡ record { ask = ask; digits = [] }) }
    {
        let digits = Vec::with_capacity(alloc, usize::from(ask.max_len))?;
        Ok(Entry { ask, digits })
    }

    /// Whether the key has no effect.
    pub(crate) fn ignores(&self, key: KeyName) -> bool
        ensures { result ≡ is_ignored key self.now }
    {
        !self.ask.active.has(key) || (is_digit(key) && self.is_full())
    }

    fn is_full(&self) -> bool
        ensures { result ≡ (length self.now.digits == self.now.ask.max_len) }
    {
        self.digits.len() == usize::from(self.ask.max_len)
    }

    /// How the entry ends behind the key, where it does: by the key's name, or `auto`.
    pub(crate) fn ending(&self, key: KeyName) -> Option<&'static str>
        ensures { option_map (λ t. t.now) result ≡ completion self.now.ask key (typed key self.now.digits) }
    {
        if self.ask.ends.has(key) {
            return Some(key.name());
        }
        let is_last = self.digits.len() + 1 == usize::from(self.ask.max_len);
        if is_digit(key) && is_last && self.ask.auto_end {
            Some("auto")
        } else {
            None
        }
    }

    /// The payload of the entry that ends with this key.
    pub(crate) fn payload(
        &self,
        alloc: Global,
        key: KeyName,
        completion: &str,
    ) -> Result<Value, AllocError>
        ensures digits { IfOk result (λ v. view v ≡ entry_payload completion.now (typed key self.now.digits)) }
        ensures sendable { IfOk result (λ v. IsPayload (view v)) }
    {
        let (kept, added) = self.edit(key);
        entry_payload(alloc, completion, &self.digits[..kept], added)
    }

    /// What the key does to the digits.
    pub(crate) fn type_key(&mut self, key: KeyName)
        requires { is_ignored key self.old ≡ false }
        ensures typed { self.new ≡ record self.old { digits = typed key self.old.digits } }
        ensures within { HasFewDigits self.new }
    {
        let (kept, added) = self.edit(key);
        self.digits.truncate(kept);
        if let Some(digit) = added {
            self.digits.push_reserved(digit);
        }
    }

    // How many of the digits stay, and the one that is appended to them.
    fn edit(&self, key: KeyName) -> (usize, Option<KeyName>)
        ensures digits { typed key self.now.digits ≡ take result.0 self.now.digits ++ listed result.1 }
        ensures within { result.0 ≤ length self.now.digits }
        ensures added { is_some result.1 ≡ is_digit key }
    {
        let length = self.digits.len();
        if is_digit(key) {
            return (length, Some(key));
        }
        match key {
            KeyName::Backspace => (length.saturating_sub(1), None),
            KeyName::Clear => (0, None),
            _ => (length, None),
        }
    }
}
