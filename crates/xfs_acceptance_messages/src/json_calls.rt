use crate::tables::halves;
use serde_json::json;
use std::alloc::Global;
use std::test::Fail;
use xfs_json::{JsonFault, Shape, Value, object, parse, text, truth, whole, words};

// Whether a text is JSON. None where it was refused for another cause than that it isn't.
fn is_json(alloc: Global, text: &[u8]) -> Option<bool> {
    match parse(alloc, text) {
        Ok(_) => Some(true),
        Err(JsonFault::NotJson) => Some(false),
        Err(_) => None,
    }
}

// Texts of the grammar of RFC 8259, and others.
#[test]
fn reads_json_and_nothing_else(rt: HostRuntime) {
    for (text, due) in [
        (" [1, {}] \n", true),
        ("null", true),
        ("{\"a\":1,\"a\":2}", true),
        ("18446744073709551616", true),
        ("", false),
        ("[", false),
        ("[1,]", false),
        ("{} x", false),
        ("01", false),
        ("1e999", false),
        ("'a'", false),
        ("\"\\uD83D\"", false),
        ("\"\n\"", false),
    ] {
        assert!(rt; is_json(rt.alloc(), text.as_bytes()) == Some(due), "{text}");
    }
    assert!(rt; is_json(rt.alloc(), &[34, 255, 34]) != Some(true));
}

// So many lists, one in another.
fn nested(alloc: Global, depth: usize) -> Result<String, Fail> {
    let mut text = "[".repeat(alloc, depth)?;
    for _ in 0..depth {
        text.push(']')?;
    }
    Ok(text)
}

#[test]
fn reads_127_nested_lists_and_no_more(rt: HostRuntime) -> Result<(), Fail> {
    for (depth, due) in [(127, true), (128, false)] {
        let text = nested(rt.alloc(), depth)?;
        assert!(rt;
            parse(rt.alloc(), text.as_bytes()).is_ok() == due,
            "{depth}"
        );
    }
    Ok(())
}

const NUMBERS: &str = "{} => Ok(None)
{\"n\":null} => Ok(None)
{\"n\":0} => Ok(Some(0))
{\"n\":7,\"n\":8} => Ok(Some(8))
{\"n\":18446744073709551615} => Ok(Some(18446744073709551615))
{\"n\":18446744073709551616} => Err(Shape)
{\"n\":-0} => Err(Shape)
{\"n\":-1} => Err(Shape)
{\"n\":1.0} => Err(Shape)
{\"n\":1e3} => Err(Shape)
{\"n\":\"1\"} => Err(Shape)";

#[test]
fn a_whole_number_has_no_point_exponent_or_minus(rt: HostRuntime) {
    for row in NUMBERS.lines() {
        assert!(rt; is_number(rt.alloc(), row) == Some(true), "{row}");
    }
}

// Whether the number of a row's text is read as the row says.
fn is_number(alloc: Global, row: &str) -> Option<bool> {
    let (text, due) = halves(row);
    let value = parse(alloc, text.as_bytes()).ok()?;
    let told = format!(in alloc; "{:?}", whole(&value, "n", 0, u64::MAX)).ok()?;
    Some(told.as_str() == due)
}

fn has_types(value: &Value) -> bool {
    words(value, "t") == Ok(Some("\"\\/\u{8}\u{c}\n\r\té😀"))
        && truth(value, "b") == Ok(Some(true))
        && words(value, "b") == Err(Shape)
        && truth(value, "o") == Err(Shape)
        && matches!(object(value, "o"), Ok(Some(_)))
        && matches!(object(value, "t"), Err(Shape))
}

#[test]
fn members_have_their_types(rt: HostRuntime) -> Result<(), Fail> {
    let text =
        "{\"t\":\"\\\"\\\\\\/\\b\\f\\n\\r\\t\\u00E9\\uD83D\\uDE00\",\"b\":true,\"o\":{\"x\":1}}";
    let value = parse(rt.alloc(), text.as_bytes()).ok().ok_or("JSON")?;
    assert!(rt; has_types(&value));
    Ok(())
}

#[test]
fn a_text_is_compact_and_its_members_are_in_order(rt: HostRuntime) -> Result<(), Fail> {
    let value = json!(in rt.alloc(); {"b": 1u64, "a": true})?;
    let written = text(rt.alloc(), &value).ok().ok_or("memory")?;
    assert!(rt; written.as_slice() == "{\"a\":true,\"b\":1}".as_bytes());
    Ok(())
}
