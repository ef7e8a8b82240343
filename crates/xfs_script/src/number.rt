ghost use Rattle.std.specs.Prelude.{◌≡◌, ◌≤◌, ◌<◌, ◌^◌, ℕ, decimal, Some, IfSome, IfNone};

use itoa::Buffer;
use std::str;

/// The number that a field writes in decimal digits without leading zeros, where it is at most `most`.
pub fn read_number(text: &[u8], most: u64) -> Option<u64>
    ensures digits { IfSome result (λ n. text.now ≡ decimal n) }
    ensures bound { IfSome result (λ n. n ≤ most) }
    ensures none { IfNone result ((n : ℕ) → n ≤ most → ¬ (text.now ≡ decimal n)) }
{
    let number = number_of(text)?;
    if number > most || Buffer::new().format(number).as_bytes() != text {
        return None;
    }
    Some(number)
}

// The number that these bytes write, perhaps with leading zeros or a plus.
fn number_of(text: &[u8]) -> Option<u64>
    ensures written { (n : ℕ) → n < 2 ^ 64 → text.now ≡ decimal n → result ≡ Some n }
{
    match str::from_utf8(text) {
        Ok(digits) => digits.parse::<u64>().ok(),
        Err(_) => None,
    }
}
