ghost use Rattle.std.specs.Prelude.{◌≡◌};
ghost use Rattle.xfs_common.specs.Errors.{error_text};

/// The error that a command with the completion code `commandErrorCode` names in its payload, as
/// XFS4IoT (CEN CWA) spells it.
#[derive(Clone, Copy, Debug, PartialEq, Eq)]
pub enum ErrorCode {
    /// The command can't be carried out while an exchange is active, or one is active already.
    ExchangeActive,
    /// There are no notes where the command takes them.
    NoItems,
    /// The amount or the notes asked for can't be made of the notes in the units.
    NotDispensable,
    /// More notes were asked for than one dispense gives.
    TooManyItems,
    /// No unit has the currency.
    InvalidCurrency,
    /// The notes asked for are none, or of units that the machine hasn't.
    InvalidDenomination,
    /// The command needs an exchange, and none is active.
    NoExchangeActive,
    /// The machine has no unit of this name.
    InvalidUnit,
    /// The notes would pass what a unit can hold.
    StorageFull,
    /// None of the commands that a Cancel names is pending on its connection.
    NoMatchingRequestIds,
    /// There is no card where the command needs one.
    NoMedia,
    /// No nonce was issued since the machine's last start.
    NoIssue,
    /// Of an order to present under the last nonce it isn't known what it put out.
    Unsettled,
}

impl ErrorCode {
    /// The error's text in a message.
    pub fn text(self) -> &'static str
        ensures { result.now ≡ error_text self }
    {
        match self {
            ErrorCode::ExchangeActive => "exchangeActive",
            ErrorCode::NoItems => "noItems",
            ErrorCode::NotDispensable => "notDispensable",
            ErrorCode::TooManyItems => "tooManyItems",
            ErrorCode::InvalidCurrency => "invalidCurrency",
            ErrorCode::InvalidDenomination => "invalidDenomination",
            ErrorCode::NoExchangeActive => "noExchangeActive",
            ErrorCode::InvalidUnit => "invalidUnit",
            ErrorCode::StorageFull => "storageFull",
            ErrorCode::NoMatchingRequestIds => "noMatchingRequestIDs",
            ErrorCode::NoMedia => "noMedia",
            ErrorCode::NoIssue => "noIssue",
            ErrorCode::Unsettled => "unsettled",
        }
    }
}
