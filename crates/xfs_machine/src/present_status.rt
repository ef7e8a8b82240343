//! The command GetPresentStatus.

ghost use Rattle.std.specs.Prelude.{◌≡◌, IfOk, IsTrue, Some, option_map};
ghost use Rattle.std.specs.Str.{IsUtf8};
ghost use Rattle.serde_json.specs.View.{view};
ghost use Rattle.xfs_common.specs.Payloads.{present_status_payload};
ghost use Rattle.xfs_model.specs.PresentStatus as presents;
ghost use Rattle.xfs_model.specs.PresentStatus.{TellsPresented};
ghost use Rattle.xfs_model.specs.Results.{error, success};
ghost use Rattle.xfs_token.specs.Token as token;

use std::alloc::Global;
use xfs_base::Memory;
use xfs_common::{ErrorCode, error_code, nothing, present_status};
use xfs_disk::Disk;
use xfs_envelope::Code;
use xfs_evidence::{EvidenceFault, evidence_under, is_nonce};
use xfs_guard::Guard;
use xfs_json::{Value, words};
use xfs_mech::Mechanism;
use xfs_traffic::Outcome;

/// What is told of the presents under the last nonce, with the nonce that the members name.
pub(crate) fn told_present_status<M: Mechanism, D: Disk>(
    alloc: Global,
    guard: &Guard<M, D>,
    payload: &Value,
) -> Result<Outcome, Memory>
    ensures { IfOk result (TellsPresented guard.now.state (presents.nonce_in (view payload.now))) }
{
    match nonce_in(payload) {
        Some(nonce) => tell_evidence(alloc, guard, nonce),
        None => Ok(Outcome::new(Code::InvalidData, nothing(alloc))),
    }
}

// The nonce that the members name.
fn nonce_in(payload: &Value) -> Option<&[u8]>
    ensures { option_map (λ n. n.now) result ≡ presents.nonce_in (view payload.now) }
{
    match words(payload, "nonce") {
        Ok(Some(text)) if is_nonce(text.as_bytes()) => Some(text.as_bytes()),
        _ => None,
    }
}

fn tell_evidence<M: Mechanism, D: Disk>(
    alloc: Global,
    guard: &Guard<M, D>,
    nonce: &[u8],
) -> Result<Outcome, Memory>
    requires { IsTrue (token.is_nonce nonce.now) }
    ensures { IfOk result (TellsPresented guard.now.state (Some nonce.now)) }
{
    let (base, records) = (guard.base(), guard.records());
    match evidence_under(alloc, guard.signer(), guard.units(), base, records, nonce) {
        Ok(token) => tell_token(alloc, &token),
        Err(EvidenceFault::NoIssue) => error_outcome(alloc, ErrorCode::NoIssue),
        Err(EvidenceFault::Unsettled { .. }) => error_outcome(alloc, ErrorCode::Unsettled),
        Err(EvidenceFault::Memory) => Err(Memory),
    }
}

fn tell_token(alloc: Global, token: &[u8]) -> Result<Outcome, Memory>
    requires { IsUtf8 token.now }
    ensures { IfOk result (λ o. o ≡ success (present_status_payload token.now)) }
{
    Ok(Outcome::new(Code::Success, present_status(alloc, token)?))
}

fn error_outcome(alloc: Global, code: ErrorCode) -> Result<Outcome, Memory>
    ensures { IfOk result (λ o. o ≡ error code) }
{
    Ok(Outcome::new(Code::CommandErrorCode, error_code(alloc, code.text())?))
}
