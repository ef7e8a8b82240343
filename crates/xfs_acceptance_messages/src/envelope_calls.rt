ghost use Rattle.std.specs.Prelude.{IfOk};
ghost use Rattle.serde_json.specs.View.{view};
ghost use Rattle.xfs_envelope.specs.Messages.{IsPayload};

use crate::tables::halves;
use serde_json::json;
use std::alloc::{AllocError, Global};
use std::process::Abort;
use std::test::Fail;
use xfs_common::record_note;
use xfs_envelope::{
    Answer, Code, Envelope, Name, Status, Why, acknowledge, completion, event, read, read_answer,
    unsolicited,
};
use xfs_json::{Map, Value};

// Texts, and their first fault with the id; or a command with its id, timeout and payload.
const COMMANDS: &str =
    "{\"header\":{\"name\":\"y\",\"requestId\":5,\"type\":\"x\"}} => BadType Some(5)
{\"header\":{\"name\":\"y\",\"requestId\":0,\"type\":\"x\"}} => BadType None
{\"header\":{\"name\":\"y\",\"requestId\":1,\"type\":\"command\"}} => BadName Some(1)
{\"header\":{\"name\":\"A.b.c\",\"requestId\":2147483648,\"type\":\"command\"}} => BadName None
{\"header\":{\"name\":\"A.B\",\"requestId\":1.0,\"type\":\"command\"}} => BadId None
{\"header\":{\"name\":\"A.B\",\"requestId\":-1,\"type\":\"command\"}} => BadId None
{\"header\":{\"name\":\"A.B\",\"requestId\":\"1\",\"type\":\"command\"}} => BadId None
{\"header\":{\"name\":\"A.B\",\"requestId\":null,\"type\":\"command\"}} => BadId None
{\"header\":{\"name\":\"A.B\",\"requestId\":4,\"type\":\"command\",\"timeout\":2147483648,\"version\":\"2\"}} => BadTimeout Some(4)
{\"header\":{\"name\":\"A.B\",\"requestId\":4,\"type\":\"command\",\"version\":\"2\"},\"payload\":[]} => BadVersion Some(4)
{\"header\":{\"name\":\"A.B\",\"requestId\":4,\"type\":\"command\"},\"payload\":[]} => BadPayload Some(4)
{\"header\":{\"name\":\"A.B\",\"requestId\":4,\"type\":\"event\"}} => BadType Some(4)
{\"header\":[]} => NoHeader None
[] => NoHeader None
[ => NotJson None
{\"header\":{\"name\":\"Common.Status\",\"requestId\":1,\"type\":\"command\"}} => Common.Status 1 0 {}
{\"payload\":{\"a\":[1]},\"header\":{\"version\":\"2.0\",\"timeout\":60000,\"type\":\"event\",\"type\":\"command\",\"x\":[],\"requestId\":18446744073709551615,\"name\":\"A.B1\"}} => A.B1 18446744073709551615 60000 {\"a\":[1]}";

fn told(alloc: Global, text: &[u8]) -> Result<String, AllocError> {
    match read(alloc, text) {
        Ok(command) => command_text(alloc, &command),
        Err(refuse) => format!(in alloc; "{:?} {:?}", refuse.why, refuse.id),
    }
}

// Whether a row's text is read as the row says.
fn is_told(alloc: Global, row: &str) -> Result<bool, AllocError> {
    let (text, due) = halves(row);
    Ok(told(alloc, text.as_bytes())?.as_str() == due)
}

fn command_text(alloc: Global, command: &Envelope) -> Result<String, AllocError> {
    let payload = command.payload.to_string(alloc)?;
    let name = command.name.as_str();
    format!(in alloc; "{name} {} {} {payload}", command.id, command.timeout)
}

#[test]
fn the_first_fault_is_named(rt: HostRuntime) -> Result<(), Fail> {
    for row in COMMANDS.lines() {
        assert!(rt; is_told(rt.alloc(), row)?, "{row}");
    }
    assert!(rt; told(rt.alloc(), &[123, 255, 125])?.as_str() == "NotJson None");
    Ok(())
}

#[test]
fn a_message_has_at_most_65536_bytes(rt: HostRuntime) -> Result<(), Fail> {
    let status = "{\"header\":{\"name\":\"Common.Status\",\"requestId\":1,\"type\":\"command\"}}";
    let mut text = String::from_str(rt.alloc(), status)?;
    text.push_str(" ".repeat(rt.alloc(), 65_536 - status.len())?.as_str())?;
    assert!(rt; read(rt.alloc(), text.as_bytes()).is_ok());
    text.push_str(" ")?;
    let refused = read(rt.alloc(), text.as_bytes()).err().ok_or("too long")?;
    assert!(rt; refused.why == Why::TooLong && refused.id.is_none());
    Ok(())
}

// Texts that a client reads, and what they are to it.
const ANSWERS: &str =
    "{\"header\":{\"name\":\"Common.Cancel\",\"requestId\":2,\"type\":\"acknowledge\",\"version\":\"2.0\"}} => acknowledge Some(2) None
{\"header\":{\"name\":\"Common.Cancel\",\"requestId\":0,\"status\":\"invalidRequestID\",\"type\":\"acknowledge\",\"version\":\"2.0\"}} => acknowledge Some(0) Some(InvalidRequestId)
{\"header\":{\"requestId\":4,\"status\":\"tooManyRequests\",\"type\":\"acknowledge\",\"version\":\"2.0\"}} => acknowledge Some(4) Some(TooManyRequests)
{\"header\":{\"status\":\"invalidMessage\",\"type\":\"acknowledge\",\"version\":\"2.0\"}} => acknowledge None Some(InvalidMessage)
{\"header\":{\"completionCode\":\"success\",\"name\":\"Common.ClearCommandNonce\",\"requestId\":1,\"type\":\"completion\",\"version\":\"2.0\"},\"payload\":{\"reasonDescription\":\"reset\"}} => completion 1 Success
{\"header\":{\"name\":\"CardReader.InsertCardEvent\",\"requestId\":7,\"type\":\"event\",\"version\":\"2.0\"},\"payload\":{}} => event 7
{\"header\":{\"name\":\"Common.NonceClearedEvent\",\"type\":\"unsolicited\",\"version\":\"2.0\"},\"payload\":{\"reasonDescription\":\"reset\"}} => unsolicited
{\"header\":{\"type\":\"acknowledge\"},\"payload\":null} => acknowledge None None
{\"header\":{\"type\":\"acknowledge\"},\"payload\":{\"a\":[]}} => acknowledge None None
{} => Shape
[ => Shape
{\"header\":{\"name\":\"Common.Status\",\"requestId\":1,\"type\":\"command\"}} => Shape
{\"header\":{\"type\":\"acknowledge\",\"status\":\"fine\"}} => Shape
{\"header\":{\"type\":\"acknowledge\",\"requestId\":1.0}} => Shape
{\"header\":{\"type\":\"acknowledge\",\"requestId\":1},\"payload\":[]} => Shape
{\"header\":{\"type\":\"acknowledge\",\"requestId\":1},\"payload\":\"\"} => Shape
{\"header\":{\"type\":\"event\",\"name\":\"A.B\",\"requestId\":1},\"payload\":0} => Shape
{\"header\":{\"type\":\"event\",\"name\":\"A.B\"}} => Shape
{\"header\":{\"type\":\"unsolicited\",\"name\":\"A.B\"},\"payload\":[]} => Shape
{\"header\":{\"type\":\"completion\",\"name\":\"A.B\",\"requestId\":1}} => Shape
{\"header\":{\"type\":\"completion\",\"name\":\"A.B\",\"requestId\":1,\"completionCode\":\"done\"}} => Shape
{\"header\":{\"type\":\"completion\",\"name\":\"A.B\",\"requestId\":1,\"completionCode\":\"fraudAttempt\",\"errorDescription\":[]}} => completion 1 FraudAttempt";

fn heard(alloc: Global, text: &str) -> Result<String, AllocError> {
    match read_answer(alloc, text.as_bytes()) {
        Ok(answer) => answer_text(alloc, &answer),
        Err(fault) => format!(in alloc; "{fault:?}"),
    }
}

// Whether a row's text is to a client what the row says.
fn is_heard(alloc: Global, row: &str) -> Result<bool, AllocError> {
    let (text, due) = halves(row);
    Ok(heard(alloc, text)?.as_str() == due)
}

fn answer_text(alloc: Global, answer: &Answer) -> Result<String, AllocError> {
    match answer {
        Answer::Acknowledge { id, status, .. } => {
            format!(in alloc; "acknowledge {id:?} {status:?}")
        }
        Answer::Event { id, .. } => format!(in alloc; "event {id}"),
        Answer::Completion { id, code, .. } => format!(in alloc; "completion {id} {code:?}"),
        Answer::Unsolicited { .. } => String::from_str(alloc, "unsolicited"),
    }
}

#[test]
fn a_client_reads_answers_and_nothing_else(rt: HostRuntime) -> Result<(), Fail> {
    for row in ANSWERS.lines() {
        assert!(rt; is_heard(rt.alloc(), row)?, "{row}");
    }
    Ok(())
}

fn reason(alloc: Global) -> Result<Value, AllocError>
    ensures { IfOk result (λ v. IsPayload (view v)) }
{
    json!(in alloc; {"reasonDescription": "reset"})
}

fn nothing(alloc: Global) -> Value
    ensures { IsPayload (view result) }
{
    Value::Object(Map::new(alloc))
}

// The acknowledges of the first rows of the table.
fn acknowledges(alloc: Global, name: &Name) -> Result<[Vec<u8>; 4], Fail> {
    let refused = Some(Status::InvalidRequestId);
    let full = Some(Status::TooManyRequests);
    let invalid = Some(Status::InvalidMessage);
    Ok([
        acknowledge(alloc, Some(name), Some(2), None)?,
        acknowledge(alloc, Some(name), Some(0), refused)?,
        acknowledge(alloc, None, Some(4), full)?,
        acknowledge(alloc, None, None, invalid)?,
    ])
}

// The other answers, as they follow there.
fn others(alloc: Global, name: &Name) -> Result<[Vec<u8>; 3], Fail> {
    let inserted = "CardReader.InsertCardEvent";
    let cleared = "Common.NonceClearedEvent";
    let reset = reason(alloc)?;
    Ok([
        completion(alloc, name, 1, Code::Success, &reset)?,
        event(alloc, inserted, 7, &nothing(alloc))?,
        unsolicited(alloc, cleared, &reset)?,
    ])
}

// Whether these texts stand in the table, from this row on.
fn stand_at(rt: &impl Abort, texts: &[Vec<u8>], first: usize) {
    for (text, row) in texts.iter().zip(ANSWERS.lines().skip(first)) {
        assert!(rt; text.as_slice() == halves(row).0.as_bytes(), "{row}");
    }
}

fn name_of(alloc: Global, name: &str) -> Result<Name, Fail> {
    Ok(Name::new(alloc, name.as_bytes()).ok().ok_or("a name")?)
}

#[test]
fn answers_are_written(rt: HostRuntime) -> Result<(), Fail> {
    let name = name_of(rt.alloc(), "Common.Cancel")?;
    stand_at(&rt, &acknowledges(rt.alloc(), &name)?, 0);
    Ok(())
}

#[test]
fn completions_and_events_are_written(rt: HostRuntime) -> Result<(), Fail> {
    let name = name_of(rt.alloc(), "Common.ClearCommandNonce")?;
    stand_at(&rt, &others(rt.alloc(), &name)?, 4);
    Ok(())
}

#[test]
fn the_number_of_a_record_is_noted(rt: HostRuntime) -> Result<(), Fail> {
    for (number, due) in [
        (6, "{\"journalRecord\":6}"),
        (u64::MAX, "{\"journalRecord\":18446744073709551615}"),
    ] {
        let note = record_note(rt.alloc(), number)?.to_vec(rt.alloc())?;
        assert!(rt; note.as_slice() == due.as_bytes());
    }
    Ok(())
}
