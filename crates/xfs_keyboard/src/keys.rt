ghost use Rattle.std.specs.Prelude.{◌≡◌, ◌≢◌, ◌<◌, true, false};
ghost use Rattle.xfs_mech.specs.declared.key.KeyName.{KeyName};
ghost use Rattle.xfs_keyboard.specs.Keys.{place_of, has, is_digit};

use std::marker::Model;
use xfs_mech::KeyName;

/// Which keys are in a set: one truth value for each key name. Contracts see it as the list of
/// these values, in the order of `KeyName`.
#[derive(Debug, Drop)]
pub struct KeySet {
    keys: [bool; 14],
}

impl Model for KeySet {
    ghost use Rattle.std.specs.Prelude.{Bool, List};

    ghost Value = { List Bool };

    ghost view = { λ s. s.keys };
}

impl KeySet {
    /// The set without keys.
    pub fn none() -> KeySet
        ensures { (key : KeyName) → has key result ≡ false }
    {
        KeySet { keys: [false; 14] }
    }

    /// The set of these truth values, in the order of `KeyName`.
    pub(crate) fn of(keys: [bool; 14]) -> KeySet
        ensures { result ≡ keys }
    {
        KeySet { keys }
    }

    /// The set with this key too.
    pub fn with(self, key: KeyName) -> KeySet
        ensures added { has key result ≡ true }
        ensures others { (other : KeyName) → other ≢ key → has other result ≡ has other self }
    {
        let mut keys = self.keys;
        keys[place(key)] = true;
        KeySet { keys }
    }

    /// The same set.
    pub fn copy(&self) -> KeySet
        ensures { result ≡ self.now }
    {
        KeySet { keys: self.keys }
    }

    /// Whether the key is in the set.
    pub fn has(&self, key: KeyName) -> bool
        ensures { result ≡ has key self.now }
    {
        self.keys[place(key)]
    }
}

fn place(key: KeyName) -> usize
    ensures place { result ≡ place_of key }
    ensures within { result < 14 }
{
    match key {
        KeyName::Zero => 0,
        KeyName::One => 1,
        KeyName::Two => 2,
        KeyName::Three => 3,
        KeyName::Four => 4,
        KeyName::Five => 5,
        KeyName::Six => 6,
        KeyName::Seven => 7,
        KeyName::Eight => 8,
        KeyName::Nine => 9,
        KeyName::Enter => 10,
        KeyName::Cancel => 11,
        KeyName::Clear => 12,
        KeyName::Backspace => 13,
    }
}

/// Whether the key is a digit, zero to nine.
pub(crate) fn is_digit(key: KeyName) -> bool
    ensures { result ≡ is_digit key }
{
    place(key) < 10
}
