//! What a host does with an evidence.

ghost use Rattle.std.specs.Prelude.{IfErr, IfOk};
ghost use Rattle.xfs_evidence.specs.Check.{IsCheckFault};
ghost use Rattle.xfs_evidence.specs.Evidence.{IsTold};

use crate::reading::told_by;
use crate::{CheckFault, Shown};
use std::alloc::Global;
use xfs_token::{TokenFault, genuine, read};

/// What the evidence tells that a text is, under a key and with the nonce that was asked with: what `evidence` made is
/// read back. It looks at the text first, then at the nonce, the HMAC and the pairs.
pub fn check(alloc: Global, key: &[u8; 32], nonce: &[u8], bytes: &[u8]) -> Result<Shown, CheckFault>
    ensures ok { IfOk result (λ shown. IsTold key.now nonce.now bytes.now shown) }
    ensures refused { IfErr result (λ fault. IsCheckFault key.now nonce.now bytes.now fault) }
{
    let token = match read(alloc, bytes) {
        Ok(token) => token,
        Err(TokenFault::Memory) => return Err(CheckFault::Memory),
        Err(_) => return Err(CheckFault::NoToken),
    };
    if token.nonce() != nonce {
        return Err(CheckFault::OtherNonce);
    }
    if !genuine(key, bytes, &token) {
        return Err(CheckFault::WrongMac);
    }
    match told_by(&token) {
        Some(shown) => Ok(shown),
        None => Err(CheckFault::NotEvidence),
    }
}
