ghost use Rattle.std.specs.Prelude.{◌≡◌};
ghost use Rattle.xfs_card.specs.Commands.{card_command};

/// The commands of the card reader, as XFS4IoT (CEN CWA) names them.
#[derive(Clone, Copy)]
pub enum CardCommand {
    ReadRawData,
    Move,
    Reset,
}

impl CardCommand {
    /// The command of this name.
    pub fn named(name: &str) -> Option<CardCommand>
        ensures { result ≡ card_command name.now }
    {
        match name {
            "CardReader.ReadRawData" => Some(CardCommand::ReadRawData),
            "CardReader.Move" => Some(CardCommand::Move),
            "CardReader.Reset" => Some(CardCommand::Reset),
            _ => None,
        }
    }
}
