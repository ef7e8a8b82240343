ghost use Rattle.std.specs.Prelude.{◌≡◌, ◌≤◌, option_map, IfOk, IfSome};
ghost use Rattle.serde_json.specs.Find.{as_bool, as_str, as_object};
ghost use Rattle.serde_json.specs.View.{view, members_view};
ghost use Rattle.xfs_json.specs.Members.{member_of, member_as, whole_in, result_map};

use crate::Map;
use serde_json::Value;

/// A member has another type than was asked for, or a number out of range.
#[derive(Clone, Copy, Debug, PartialEq, Eq)]
pub struct Shape;

/// A member that is a whole number from `low` to `high`, or None where it is absent or null.
/// A number with a point or an exponent, `-0` and a number past 64 bits are no whole numbers.
pub fn whole(value: &Value, name: &str, low: u64, high: u64) -> Result<Option<u64>, Shape>
    ensures number { result ≡ member_as (whole_in low high) (member_of name.now (view value.now)) }
    ensures bounds { IfOk result (λ found. IfSome found (λ n. (low ≤ n) × (n ≤ high))) }
{
    match member(value, name) {
        None => Ok(None),
        Some(member) => match member.as_u64() {
            Some(number) if low <= number && number <= high => Ok(Some(number)),
            _ => Err(Shape),
        },
    }
}

/// A member that is a text, or None where it is absent or null.
pub fn words<'a>(value: &'a Value, name: &str) -> Result<Option<&'a str>, Shape>
    ensures { result_map (option_map (λ t. t.now)) result
        ≡ member_as as_str (member_of name.now (view value.now)) }
{
    match member(value, name) {
        None => Ok(None),
        Some(member) => match member.as_str() {
            Some(text) => Ok(Some(text)),
            None => Err(Shape),
        },
    }
}

/// A member that is true or false, or None where it is absent or null.
pub fn truth(value: &Value, name: &str) -> Result<Option<bool>, Shape>
    ensures { result ≡ member_as as_bool (member_of name.now (view value.now)) }
{
    match member(value, name) {
        None => Ok(None),
        Some(member) => match member.as_bool() {
            Some(truth) => Ok(Some(truth)),
            None => Err(Shape),
        },
    }
}

/// A member that is an object, or None where it is absent or null.
pub fn object<'a>(value: &'a Value, name: &str) -> Result<Option<&'a Map>, Shape>
    ensures { result_map (option_map (λ m. members_view m.now.entries)) result
        ≡ member_as as_object (member_of name.now (view value.now)) }
{
    match member(value, name) {
        None => Ok(None),
        Some(member) => match member.as_object() {
            Some(members) => Ok(Some(members)),
            None => Err(Shape),
        },
    }
}

fn member<'a>(value: &'a Value, name: &str) -> Option<&'a Value>
    ensures { option_map (λ m. view m.now) result ≡ member_of name.now (view value.now) }
{
    match value.get(name) {
        Some(member) if !member.is_null() => Some(member),
        _ => None,
    }
}
