ghost use Rattle.std.specs.Prelude.{◌≡◌};
ghost use Rattle.xfs_envelope.specs.Codes.{code_text, code_of, status_text, status_of};

/// How a command ended: the completion codes of this profile of XFS4IoT. The payload of
/// `CommandErrorCode` names the error of the command. The services send no `UnsupportedData`,
/// `InternalError`, `UnsupportedCommand`, `UserError` or `FraudAttempt`; a client reads them.
#[derive(Clone, Copy, Debug, PartialEq, Eq)]
pub enum Code {
    Success,
    CommandErrorCode,
    Canceled,
    TimeOut,
    DeviceNotReady,
    HardwareError,
    InvalidCommand,
    InvalidData,
    UnsupportedData,
    SequenceError,
    AuthorisationRequired,
    NoCommandNonce,
    InvalidToken,
    InvalidTokenNonce,
    InvalidTokenHmac,
    InvalidTokenFormat,
    InvalidTokenKeyNoValue,
    NotEnoughSpace,
    InternalError,
    UnsupportedCommand,
    UserError,
    FraudAttempt,
}

/// Why a command was not accepted: its message was refused, its request id is 0, too large or
/// pending, or too many commands are pending.
#[derive(Clone, Copy, Debug, PartialEq, Eq)]
pub enum Status {
    InvalidMessage,
    InvalidRequestId,
    TooManyRequests,
}

const CODES: [Code; 22] = [
    Code::Success,
    Code::CommandErrorCode,
    Code::Canceled,
    Code::TimeOut,
    Code::DeviceNotReady,
    Code::HardwareError,
    Code::InvalidCommand,
    Code::InvalidData,
    Code::UnsupportedData,
    Code::SequenceError,
    Code::AuthorisationRequired,
    Code::NoCommandNonce,
    Code::InvalidToken,
    Code::InvalidTokenNonce,
    Code::InvalidTokenHmac,
    Code::InvalidTokenFormat,
    Code::InvalidTokenKeyNoValue,
    Code::NotEnoughSpace,
    Code::InternalError,
    Code::UnsupportedCommand,
    Code::UserError,
    Code::FraudAttempt,
];

const STATUSES: [Status; 3] = [
    Status::InvalidMessage,
    Status::InvalidRequestId,
    Status::TooManyRequests,
];

impl Code {
    /// The code's text in a message.
    pub fn text(self) -> &'static str
        ensures { result.now ≡ code_text self }
    {
        match self {
            Code::Success => "success",
            Code::CommandErrorCode => "commandErrorCode",
            Code::Canceled => "canceled",
            Code::TimeOut => "timeOut",
            Code::DeviceNotReady => "deviceNotReady",
            Code::HardwareError => "hardwareError",
            Code::InvalidCommand => "invalidCommand",
            Code::InvalidData => "invalidData",
            Code::UnsupportedData => "unsupportedData",
            Code::SequenceError => "sequenceError",
            Code::AuthorisationRequired => "authorisationRequired",
            Code::NoCommandNonce => "noCommandNonce",
            Code::InvalidToken => "invalidToken",
            Code::InvalidTokenNonce => "invalidTokenNonce",
            Code::InvalidTokenHmac => "invalidTokenHMAC",
            Code::InvalidTokenFormat => "invalidTokenFormat",
            Code::InvalidTokenKeyNoValue => "invalidTokenKeyNoValue",
            Code::NotEnoughSpace => "notEnoughSpace",
            Code::InternalError => "internalError",
            Code::UnsupportedCommand => "unsupportedCommand",
            Code::UserError => "userError",
            Code::FraudAttempt => "fraudAttempt",
        }
    }

    /// The code of a text, where it is one.
    pub fn of(text: &str) -> Option<Code>
        ensures { result ≡ code_of text.now }
    {
        CODES.iter().copied().find(|code| code.text() == text)
    }
}

impl Status {
    /// The status's text in a message.
    pub fn text(self) -> &'static str
        ensures { result.now ≡ status_text self }
    {
        match self {
            Status::InvalidMessage => "invalidMessage",
            Status::InvalidRequestId => "invalidRequestID",
            Status::TooManyRequests => "tooManyRequests",
        }
    }

    /// The status of a text, where it is one.
    pub fn of(text: &str) -> Option<Status>
        ensures { result ≡ status_of text.now }
    {
        STATUSES
            .iter()
            .copied()
            .find(|status| status.text() == text)
    }
}
