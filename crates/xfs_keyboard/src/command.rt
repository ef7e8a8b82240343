ghost use Rattle.std.specs.Prelude.{◌≡◌};
ghost use Rattle.xfs_keyboard.specs.Commands.{keys_command};

/// The commands of the keyboard, as XFS4IoT (CEN CWA) names them.
#[derive(Clone, Copy)]
pub enum KeysCommand {
    DataEntry,
}

impl KeysCommand {
    /// The command of this name.
    pub fn named(name: &str) -> Option<KeysCommand>
        ensures { result ≡ keys_command name.now }
    {
        match name {
            "Keyboard.DataEntry" => Some(KeysCommand::DataEntry),
            _ => None,
        }
    }
}
