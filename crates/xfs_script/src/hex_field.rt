ghost use Rattle.std.specs.Prelude.{◌≡◌, List, ℕ, IfOk, IfSome, IfNone, Ok};
ghost use Rattle.hex.specs.Hex.{decode_of};

use hex::FromHexError;
use std::alloc::Global;
use xfs_base::Memory;

// The bytes that a field writes with two hexadecimal digits each, of either case.
pub(crate) fn bytes_of_digits(alloc: Global, field: &[u8]) -> Result<Option<Vec<u8>>, Memory>
    ensures found { IfOk result (λ found. IfSome found (λ bytes. decode_of field.now ≡ Ok bytes.items)) }
    ensures none { IfOk result (λ found. IfNone found ((bytes : List ℕ) → ¬ (decode_of field.now ≡ Ok bytes))) }
{
    match hex::decode(alloc, field) {
        Ok(bytes) => Ok(Some(bytes)),
        Err(FromHexError::OutOfMemory) => Err(Memory),
        Err(_) => Ok(None),
    }
}
