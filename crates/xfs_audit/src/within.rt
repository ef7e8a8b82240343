//! Whether what was put out stays within the tokens.

ghost use Rattle.std.specs.Prelude.{◌≡◌, ◌↔◌, IsTrue, IfOk};
ghost use Rattle.xfs_guard.specs.Agrees.{Agrees};
ghost use Rattle.xfs_guard.specs.Within.{Within};

use crate::payer::Payer;
use std::alloc::Global;
use xfs_base::{Memory, UnitTable};
use xfs_journal::Rec;
use xfs_mech::Motion;
use xfs_token::TokenKey;

/// Whether what was put out since each nonce was issued is worth no more than the token that was
/// bound to it first. Records and motions are read once, side by side, and one HMAC is made for each
/// token on which notes were put out.
pub fn is_within(
    alloc: Global,
    key: &[u8; 32],
    units: &UnitTable,
    records: &[Rec],
    motions: &[Motion],
) -> Result<bool, Memory>
    requires { Agrees records.now motions.now }
    ensures { IfOk result (λ within. IsTrue within ↔ Within key.now units.now records.now motions.now) }
{
    let key = TokenKey::new(*key);
    let mut payer = Payer::new();
    for entry in motions {
        if !payer.read(alloc, &key, units, records, entry)? {
            return Ok(false);
        }
    }
    Ok(true)
}
