ghost use Rattle.std.specs.Prelude.{◌≡◌, ◌≢◌, Some, IfOk, OnErr};
ghost use Rattle.xfs_guard.specs.declared.deny.Deny.TheVariants.{Disk};
ghost use Rattle.xfs_dispenser.specs.declared.refusal.Refusal.TheVariants.{Deny as Denied};
ghost use Rattle.xfs_dispenser.specs.Answers.{answer_of, answered, denial, error_answer, record_answer, plain_answer};

use serde_json::Value;
use std::alloc::Global;
use xfs_base::Memory;
use xfs_common::{ErrorCode, error_code, nothing, record_note};
use xfs_envelope::Code;
use xfs_guard::Deny;

/// Why a command of the dispenser isn't done.
#[derive(Clone, Copy, Debug, PartialEq, Eq)]
pub enum Refusal {
    /// A number is outside its range.
    InvalidData,
    /// The command has no token.
    NoToken,
    /// The command's own error.
    Error(ErrorCode),
    /// The guard refuses.
    Deny(Deny),
    Memory,
}

impl From<Deny> for Refusal {
    ghost use Rattle.xfs_dispenser.specs.Checks.{denied};

    ghost from_gives = { λ deny e. e ≡ denied deny };

    fn from(deny: Deny) -> Self {
        match deny {
            Deny::Memory => Refusal::Memory,
            other => Refusal::Deny(other),
        }
    }
}

impl Refusal {
    /// The completion code and the payload that tell the refusal. Want of memory is told by none. A
    /// failing disk, which is the one refusal behind which something has changed, is told without memory.
    pub fn answer(&self, alloc: Global) -> Result<(Code, Value), Memory>
        ensures told { IfOk result (λ r. answer_of self.now ≡ Some (answered r.0 r.1)) }
        ensures disk { OnErr result (self.now ≢ Denied Disk) }
    {
        match self {
            Refusal::InvalidData => Ok(plain_answer(alloc, Code::InvalidData)),
            Refusal::NoToken => Ok(plain_answer(alloc, Code::AuthorisationRequired)),
            Refusal::Error(fault) => error_answer(alloc, *fault),
            Refusal::Deny(deny) => denial(alloc, *deny),
            Refusal::Memory => Err(Memory),
        }
    }
}

// The answer to a refusal of the guard, where it isn't want of memory.
pub(crate) fn denial(alloc: Global, deny: Deny) -> Result<(Code, Value), Memory>
    ensures told { IfOk result (λ r. denial deny ≡ Some (answered r.0 r.1)) }
    ensures disk { OnErr result (deny ≢ Disk) }
{
    match deny {
        Deny::Shut | Deny::Full | Deny::Disk => Ok(plain_answer(alloc, Code::DeviceNotReady)),
        Deny::TooLong => Ok(plain_answer(alloc, Code::NotEnoughSpace)),
        Deny::KeyNoValue { .. } => Ok(plain_answer(alloc, Code::InvalidTokenKeyNoValue)),
        Deny::Format { .. } | Deny::NoAmounts => Ok(plain_answer(alloc, Code::InvalidTokenFormat)),
        Deny::WrongMac { .. } => Ok(plain_answer(alloc, Code::InvalidTokenHmac)),
        Deny::OtherBound { .. } | Deny::OverBudget { .. } => Ok(plain_answer(
            alloc,
            Code::InvalidToken,
        )),
        Deny::NotEmpty { .. } | Deny::OutletFull { .. } => Ok(plain_answer(
            alloc,
            Code::SequenceError,
        )),
        Deny::Unbound { .. } => Ok(plain_answer(alloc, Code::AuthorisationRequired)),
        Deny::NoNonce { since } => record_answer(alloc, Code::NoCommandNonce, since),
        Deny::WrongNonce { since } => record_answer(alloc, Code::InvalidTokenNonce, since),
        Deny::Nothing => error_answer(alloc, ErrorCode::NoItems),
        Deny::Short { .. } => error_answer(alloc, ErrorCode::NotDispensable),
        Deny::Memory => Err(Memory),
    }
}

// A completion code with the payload `{}`.
pub(crate) fn plain_answer(alloc: Global, code: Code) -> (Code, Value)
    ensures { answered result.0 result.1 ≡ plain_answer code }
{
    (code, nothing(alloc))
}

fn error_answer(alloc: Global, fault: ErrorCode) -> Result<(Code, Value), Memory>
    ensures { IfOk result (λ r. answered r.0 r.1 ≡ error_answer fault) }
{
    let payload = error_code(alloc, fault.text())?;
    Ok((Code::CommandErrorCode, payload))
}

fn record_answer(alloc: Global, code: Code, since: u64) -> Result<(Code, Value), Memory>
    ensures { IfOk result (λ r. answered r.0 r.1 ≡ record_answer code since) }
{
    let payload = record_note(alloc, since)?;
    Ok((code, payload))
}
