ghost use Rattle.std.specs.Prelude.{◌≡◌, ◌≢◌, IfSome, IfNone};
ghost use Rattle.xfs_mech.specs.declared.key.KeyName.{KeyName};
ghost use Rattle.xfs_mech.specs.Keys.{name_of};

/// The keys of the key pad, by the names that XFS4IoT (CEN CWA) gives them.
#[derive(Clone, Copy, Debug, PartialEq, Eq)]
pub enum KeyName {
    Zero,
    One,
    Two,
    Three,
    Four,
    Five,
    Six,
    Seven,
    Eight,
    Nine,
    Enter,
    Cancel,
    Clear,
    Backspace,
}

impl KeyName {
    /// The name in messages and scripts, as `backspace`.
    pub fn name(self) -> &'static str
        ensures { result.now ≡ name_of self }
    {
        match self {
            KeyName::Zero => "zero",
            KeyName::One => "one",
            KeyName::Two => "two",
            KeyName::Three => "three",
            KeyName::Four => "four",
            KeyName::Five => "five",
            KeyName::Six => "six",
            KeyName::Seven => "seven",
            KeyName::Eight => "eight",
            KeyName::Nine => "nine",
            KeyName::Enter => "enter",
            KeyName::Cancel => "cancel",
            KeyName::Clear => "clear",
            KeyName::Backspace => "backspace",
        }
    }

    /// The key of this name. None exactly where there is none.
    pub fn named(name: &str) -> Option<KeyName>
        ensures found { IfSome result (λ key. name_of key ≡ name.now) }
        ensures none { IfNone result ((key : KeyName) → name_of key ≢ name.now) }
    {
        match name {
            "zero" => Some(KeyName::Zero),
            "one" => Some(KeyName::One),
            "two" => Some(KeyName::Two),
            "three" => Some(KeyName::Three),
            "four" => Some(KeyName::Four),
            "five" => Some(KeyName::Five),
            "six" => Some(KeyName::Six),
            "seven" => Some(KeyName::Seven),
            "eight" => Some(KeyName::Eight),
            "nine" => Some(KeyName::Nine),
            "enter" => Some(KeyName::Enter),
            "cancel" => Some(KeyName::Cancel),
            "clear" => Some(KeyName::Clear),
            "backspace" => Some(KeyName::Backspace),
            _ => None,
        }
    }
}
