ghost use Rattle.std.specs.Prelude.{◌≡◌, ◌↔◌, codes, IfOk, OnErr, IsTrue, IsSome, Some};
ghost use Rattle.serde_json.specs.View.{view, members_view};
ghost use Rattle.xfs_keyboard.specs.Asks.{AsksEntry, AllKeys, AreKeys, IsKeyEntry, IsKeyName, is_active, terminates, truth_of};
ghost use Rattle.xfs_keyboard.specs.Keys.{has};
ghost use Rattle.xfs_keyboard.specs.declared.ask.EntryAsk.{EntryAsk};
ghost use Rattle.xfs_mech.specs.declared.key.KeyName.{KeyName};

use crate::KeySet;
use serde_json::Value;
use xfs_json::{Map, Shape, truth, whole};
use xfs_mech::KeyName;

/// What a Keyboard.DataEntry asks for.
#[derive(Debug, Drop)]
pub struct EntryAsk {
    /// The most digits, 1 to 64.
    pub max_len: u8,
    /// Whether the last digit ends the entry.
    pub auto_end: bool,
    /// The keys that have an effect.
    pub active: KeySet,
    /// Those of them that end the entry.
    pub ends: KeySet,
}

impl EntryAsk {
    /// The same once more. It takes no memory.
    pub fn copy(&self) -> EntryAsk
        ensures { result ≡ self.now }
    {
        EntryAsk {
            max_len: self.max_len,
            auto_end: self.auto_end,
            active: self.active.copy(),
            ends: self.ends.copy(),
        }
    }
}

// Every key, in the order of `KeyName`.
const KEYS: [KeyName; 14] = [
    KeyName::Zero,
    KeyName::One,
    KeyName::Two,
    KeyName::Three,
    KeyName::Four,
    KeyName::Five,
    KeyName::Six,
    KeyName::Seven,
    KeyName::Eight,
    KeyName::Nine,
    KeyName::Enter,
    KeyName::Cancel,
    KeyName::Clear,
    KeyName::Backspace,
];

/// Reads the payload of Keyboard.DataEntry (XFS4IoT, CEN CWA): `maxLen`, `autoEnd` and
/// `activeKeys`. It takes no memory.
pub fn read_entry(payload: &Value) -> Result<EntryAsk, Shape>
    ensures ok { IfOk result (AsksEntry (view payload.now)) }
    ensures shape { OnErr result ((ask : EntryAsk) → ¬ AsksEntry (view payload.now) ask) }
{
    let Some(max_len) = whole(payload, "maxLen", 1, 64)? else {
        return Err(Shape);
    };
    let auto_end = truth(payload, "autoEnd")?.unwrap_or(false);
    let Some(keys) = payload.get("activeKeys") else {
        return Err(Shape);
    };
    let Some(members) = keys.as_object() else {
        return Err(Shape);
    };
    if !are_keys(members) {
        return Err(Shape);
    }
    Ok(EntryAsk {
        max_len: max_len as u8,
        auto_end,
        active: active_in(keys),
        ends: ends_in(keys),
    })
}

fn are_keys(keys: &Map) -> bool
    ensures { IsTrue result ↔ AreKeys (Some (members_view keys.now.entries)) }
{
    !keys.is_empty() && all_keys(keys)
}

fn all_keys(keys: &Map) -> bool
    ensures { IsTrue result ↔ AllKeys (members_view keys.now.entries) }
{
    for (name, entry) in keys {
        if KeyName::named(name).is_none() || !is_key_entry(entry) {
            return false;
        }
    }
    true
}

fn is_key_entry(entry: &Value) -> bool
    ensures { IsTrue result ↔ IsKeyEntry (view entry.now) }
{
    entry.is_object() && terminate(entry).is_some()
}

// Whether the entry of a key says that it ends an entry.
fn terminate(entry: &Value) -> Option<bool>
    ensures { result ≡ truth_of (codes "terminate") (view entry.now) }
{
    match truth(entry, "terminate") {
        Ok(terminate) => Some(terminate.unwrap_or(false)),
        Err(Shape) => None,
    }
}

fn active_in(keys: &Value) -> KeySet
    ensures { (key : KeyName) → has key result ≡ is_active key (view keys.now) }
{
    let mut active = [false; 14];
    for i in 0..14 {
        active[i] = is_active(keys, KEYS[i]);
    }
    KeySet::of(active)
}

fn ends_in(keys: &Value) -> KeySet
    ensures { (key : KeyName) → has key result ≡ terminates key (view keys.now) }
{
    let mut ends = [false; 14];
    for i in 0..14 {
        ends[i] = terminates(keys, KEYS[i]);
    }
    KeySet::of(ends)
}

fn is_active(keys: &Value, key: KeyName) -> bool
    ensures { result ≡ is_active key (view keys.now) }
{
    keys.get(key.name()).is_some()
}

fn terminates(keys: &Value, key: KeyName) -> bool
    ensures { result ≡ terminates key (view keys.now) }
{
    match keys.get(key.name()) {
        Some(entry) => terminate(entry).unwrap_or(false),
        None => false,
    }
}
