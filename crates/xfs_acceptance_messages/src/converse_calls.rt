//! What is a conversation, list by list.

use crate::tables::halves;
use std::alloc::Global;
use std::test::Fail;
use xfs_audit::converse;
use xfs_base::Bytes;

// Texts, frames and the ids that are pending at the end, and whether they are a conversation. `7A` is the command `N.A` with
// the id 7; `+` an acknowledge that accepts, `-` one that says invalidMessage, `~` one that refuses otherwise; `7A.` a
// completion of `N.A` with the id 7, `7!` an event with the id 7, and `u` what is unsolicited; `none` is an empty list.
const ROWS: &str = "none | none | none => true
{ | - | none => true
{ | none | none => false
none | - | none => false
{ | + | none => false
{ | ~ | none => false
7A | - | none => false
7A | ~ | none => true
7A | + | 7 => true
7A | + | none => false
7A | + | 8 => false
7A | + | 7 7 => false
7A | + 7A. | none => true
7A | + 7A. | 7 => false
7A | 7A. + | none => false
7A | 7A. + | 7 => false
7A | ~ 7A. | none => false
7A | + 7B. | none => false
7A | + 8A. | none => false
7A | + 7A. 7A. | none => false
7A | + + 7A. | none => false
7A 8A | + 7A. | none => false
7A | + 7! 7! 7A. | none => true
7A | + 7! | 7 => true
7A | 7! + 7A. | none => false
7A | + 7A. 7! | none => false
7A | + 8! 7A. | none => false
7A | u + u 7A. u | none => true
7A | + {} 7A. | none => false
7A | + 7A. { | none => false
0A | + 0A. | none => true
7A { 8B | + - ~ 7A. | none => true
7A { 8B | + ~ - 7A. | none => false
7A 8B 9C | + + + 8B. | 7 9 => true
7A 8B 9C | + + + 8B. | 9 7 => false
7A 7A | + 7A. + 7A. | none => true
7A 7A | + + 7A. | 7 => true
7A 7A | + + 7A. 7A. | none => true
7A 7B | + + 7B. | 7 => true
7A 7B | + + 7B. 7! 7B. | none => false
7A 8B 7A | + + + 7A. | 8 7 => true
7A 8B 7A | + + + 7A. | 7 8 => true
7A 8B 7A | + + 7A. + | 8 7 => true
7A 8B 7A | + + 7A. + | 7 8 => false
7A 8B 7C | + + + 7A. | 7 8 => false
7A 8B 7C 7A | + + + + 7A. | 7 8 7 => true
7A 8B 7C 7A | + + + + 7A. | 8 7 7 => true
7A 8B 7C 7A | + + + + 7A. | 7 7 8 => false
7A 8B 7C 7A | + + + + 7C. | 7 8 7 => true
7A 8B 7C 7A | + + + + 7C. | 8 7 7 => false
7A 8B 7C 7A | + + + + 7A. 7A. | 8 7 => true
7A 8B 7A 8B 7A 8B | + + + + + + 7A. 8B. | 7 8 8 7 => true
7A 8B 7A 8B 7A 8B | + + + + + + 7A. 8B. | 8 7 7 8 => true
7A 8B 7A 8B 7A 8B | + + + 7A. + 8B. + + 7A. 7! 8B. | 7 8 => true
7A 8B 7A 8B 7A 8B | + + 7A. + + 7A. + + | 8 8 7 8 => true
7A 8B 7A 8B 7A 8B | + + 7A. + + 7A. + + | 8 7 8 8 => false";

// An id of one digit, and what stands behind it.
fn parts(word: &str) -> Result<(&str, &str), Fail> {
    Ok(word.split_at_checked(1).ok_or("an id")?)
}

fn text(alloc: Global, word: &str) -> Result<Bytes, Fail> {
    if word == "{" {
        return bytes(alloc, word);
    }
    let (id, name) = parts(word)?;
    bytes(
        alloc,
        format!(in alloc;
            "{{\"header\":{{\"name\":\"N.{name}\",\"requestId\":{id},\"type\":\"command\"}}}}"
        )?.as_str(),
    )
}

fn frame(alloc: Global, word: &str) -> Result<Bytes, Fail> {
    match word {
        "+" => bytes(alloc, "{\"header\":{\"type\":\"acknowledge\"}}"),
        "-" => bytes(
            alloc,
            "{\"header\":{\"status\":\"invalidMessage\",\"type\":\"acknowledge\",\"version\":\"2.0\"}}",
        ),
        "~" => bytes(
            alloc,
            "{\"header\":{\"requestId\":3,\"status\":\"invalidRequestID\",\"type\":\"acknowledge\"}}",
        ),
        "u" => bytes(
            alloc,
            "{\"header\":{\"name\":\"N.U\",\"type\":\"unsolicited\"}}",
        ),
        "{" | "{}" => bytes(alloc, word),
        _ => answer(alloc, word),
    }
}

fn answer(alloc: Global, word: &str) -> Result<Bytes, Fail> {
    let (id, name) = parts(word)?;
    match name.strip_suffix(".") {
        Some(name) => bytes(
            alloc,
            format!(in alloc;
                "{{\"header\":{{\"completionCode\":\"success\",\"name\":\"N.{name}\",\"requestId\":{id},\"type\":\"completion\"}}}}"
            )?.as_str(),
        ),
        None => bytes(
            alloc,
            format!(in alloc;
                "{{\"header\":{{\"name\":\"N.E\",\"requestId\":{id},\"type\":\"event\"}}}}"
            )?.as_str(),
        ),
    }
}

fn bytes(alloc: Global, text: &str) -> Result<Bytes, Fail> {
    Ok(Bytes::new(Vec::from_slice(alloc, text.as_bytes())?))
}

// The words of a list, which is empty as `none`.
fn words(list: Option<&str>) -> Result<&str, Fail> {
    match list.ok_or("a list")?.trim() {
        "none" => Ok(""),
        list => Ok(list),
    }
}

fn texts_of(alloc: Global, list: &str) -> Result<Vec<Bytes>, Fail> {
    let mut texts = Vec::new(alloc);
    for word in list.split_whitespace() {
        texts.push(text(alloc, word)?)?;
    }
    Ok(texts)
}

fn frames_of(alloc: Global, list: &str) -> Result<Vec<Bytes>, Fail> {
    let mut frames = Vec::new(alloc);
    for word in list.split_whitespace() {
        frames.push(frame(alloc, word)?)?;
    }
    Ok(frames)
}

fn ids_of(alloc: Global, list: &str) -> Result<Vec<u64>, Fail> {
    let mut ids = Vec::new(alloc);
    for word in list.split_whitespace() {
        ids.push(word.parse::<u64>().ok().ok_or("an id")?)?;
    }
    Ok(ids)
}

fn found(alloc: Global, lists: &str) -> Result<bool, Fail> {
    let mut lists = lists.split('|');
    let texts = words(lists.next())?;
    let frames = words(lists.next())?;
    let pending = words(lists.next())?;
    are_found(alloc, texts, frames, pending)
}

fn are_found(alloc: Global, texts: &str, frames: &str, pending: &str) -> Result<bool, Fail> {
    let pending = ids_of(alloc, pending)?;
    let texts = texts_of(alloc, texts)?;
    let frames = frames_of(alloc, frames)?;
    let kept = converse(alloc, &texts, &frames, &pending);
    Ok(kept.ok().ok_or("memory")?)
}

#[test]
fn frames_are_what_the_texts_may_hear(rt: HostRuntime) -> Result<(), Fail> {
    for row in ROWS.lines() {
        let (lists, due) = halves(row);
        assert!(rt; found(rt.alloc(), lists)? == (due == "true"), "{row}");
    }
    Ok(())
}
