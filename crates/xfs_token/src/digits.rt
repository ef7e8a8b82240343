ghost use Rattle.std.specs.Prelude.{◌≡◌, ◌^◌, ◌<◌, ◌≤◌, length, IfSome, is_some};
ghost use Rattle.std.specs.List.{list_all};
ghost use Rattle.xfs_token.specs.Token.{is_digit};
ghost use Rattle.xfs_token.specs.Amounts.{number_of};

/// The number that at most nine decimal digits write: 0 where there are none. None where another
/// byte is among them.
pub fn read_digits(digits: &[u8]) -> Option<u64>
    requires { length digits.now ≤ 9 }
    ensures value { IfSome result (λ n. n ≡ number_of digits.now) }
    ensures bound { IfSome result (λ n. n < 10 ^ length digits.now) }
    ensures found { is_some result ≡ list_all is_digit digits.now }
{
    let mut number = 0u64;
    for digit in digits {
        if *digit < b'0' || *digit > b'9' {
            return None;
        }
        number = 10 * number + u64::from(*digit - b'0');
    }
    Some(number)
}
