ghost use Rattle.std.specs.Prelude.{◌≡◌, ◌≤◌, false, IfOk, []};
ghost use Rattle.serde_json.specs.Data.{depth};
ghost use Rattle.serde_json.specs.View.{view};
ghost use Rattle.serde_json.specs.Written.{has_float};
ghost use Rattle.xfs_client.specs.Desks.{Recalls};

use crate::tables::halves;
use serde_json::json;
use std::alloc::{AllocError, Global};
use std::process::Abort;
use std::test::Fail;
use xfs_base::Currency;
use xfs_client::{Desk, HearFault, Heard, Move, Withdrawal};
use xfs_json::{Map, Value};

// What a withdrawal of EUR 70 under a key of 32 bytes 0x0b says to the last of the texts of these words.
fn last_answer(alloc: Global, words: &str) -> Result<String, Fail> {
    let euro = Currency::new(b"EUR").ok_or("letters")?;
    let mut withdrawal = Withdrawal::new(alloc, euro, 70, [0x0b; 32]);
    let first = started(alloc, &mut withdrawal)?;
    last_told(alloc, &mut withdrawal, first, words)
}

fn started(alloc: Global, withdrawal: &mut Withdrawal) -> Result<String, Fail>
    requires fresh { Recalls withdrawal.old.desk [] }
{
    let first = withdrawal.start()?;
    Ok(as_text(alloc, &first)?)
}

fn last_told(
    alloc: Global,
    withdrawal: &mut Withdrawal,
    first: String,
    words: &str,
) -> Result<String, Fail> {
    let mut answer = first;
    for word in words.split_whitespace() {
        answer = move_text(alloc, withdrawal.next(text_of(word).as_bytes()))?;
    }
    Ok(answer)
}

fn move_text(alloc: Global, told: Result<Move, HearFault>) -> Result<String, AllocError> {
    match &told {
        Ok(Move::Ask(text)) => as_text(alloc, text.list()),
        Ok(Move::Wait) => String::from_str(alloc, "wait"),
        Ok(Move::Done) => String::from_str(alloc, "done"),
        Ok(Move::Ended(code)) => String::from_str(alloc, code.text()),
        Ok(Move::Refused(status)) => String::from_str(alloc, status.text()),
        Err(fault) => format!(in alloc; "{fault:?}"),
    }
}

fn as_text(alloc: Global, bytes: &[u8]) -> Result<String, AllocError> {
    String::from_str(alloc, str::from_utf8(bytes).unwrap_or("no text"))
}

const NONCE: &str =
    "{\"header\":{\"completionCode\":\"success\",\"name\":\"Common.GetCommandNonce\",\"requestId\":1,\"type\":\"completion\",\"version\":\"2.0\"},\"payload\":{\"commandNonce\":\"E56A5D4028BD86530000000000000001\"}}";

const DISPENSED: &str =
    "{\"header\":{\"completionCode\":\"success\",\"name\":\"CashDispenser.Dispense\",\"requestId\":2,\"type\":\"completion\",\"version\":\"2.0\"},\"payload\":{\"denomination\":{\"currencies\":{\"EUR\":70},\"values\":{\"unit2\":1,\"unit3\":1}}}}";

const PRESENTED: &str =
    "{\"header\":{\"completionCode\":\"success\",\"name\":\"CashDispenser.Present\",\"requestId\":3,\"type\":\"completion\",\"version\":\"2.0\"},\"payload\":{}}";

const ASK_NONCE: &str =
    "{\"header\":{\"name\":\"Common.GetCommandNonce\",\"requestId\":1,\"type\":\"command\"},\"payload\":{}}";
// The HMAC is that of a stock tool.
const ASK_DISPENSE: &str =
    "{\"header\":{\"name\":\"CashDispenser.Dispense\",\"requestId\":2,\"type\":\"command\"},\"payload\":{\"denomination\":{\"currencies\":{\"EUR\":70}},\"mix\":\"minimum\",\"token\":\"NONCE=E56A5D4028BD86530000000000000001,TOKENFORMAT=1,TOKENLENGTH=0164,DISPENSE1=70.00EUR,HMACSHA256=211E369BECF0691A56765361CF51D65B001972FD38701AF983846CC1406B26DD\"}}";

const ASK_PRESENT: &str =
    "{\"header\":{\"name\":\"CashDispenser.Present\",\"requestId\":3,\"type\":\"command\"},\"payload\":{}}";

const NO_NONCE: &str =
    "{\"header\":{\"type\":\"completion\",\"name\":\"A.B\",\"requestId\":1,\"completionCode\":\"success\"},\"payload\":{\"commandNonce\":\"e56a\"}}";

const UNSOLICITED: &str = "{\"header\":{\"type\":\"unsolicited\",\"name\":\"A.B\"}}";

const ACCEPTED: &str = "{\"header\":{\"type\":\"acknowledge\",\"requestId\":1}}";

const MANY: &str =
    "{\"header\":{\"type\":\"acknowledge\",\"requestId\":2,\"status\":\"tooManyRequests\"}}";

// What a withdrawal hears, and what it says to the last of that.
const ENDS: &str = " => ask nonce
accepted => wait
nonce => ask dispense
nonce dispensed => ask present
nonce dispensed presented => done
nonce nonce => Stranger
nonce dispensed presented presented => Stranger
presented => Stranger
unsolicited => wait
{\"header\":{\"type\":\"event\",\"name\":\"A.B\",\"requestId\":1}} => wait
{\"header\":{\"type\":\"event\",\"name\":\"A.B\",\"requestId\":9}} => Stranger
{\"header\":{\"type\":\"acknowledge\",\"requestId\":1,\"status\":\"invalidMessage\"}} => invalidMessage
nonce many => tooManyRequests
nonce many dispensed => Stranger
{\"header\":{\"type\":\"completion\",\"name\":\"A.B\",\"requestId\":1,\"completionCode\":\"deviceNotReady\"}} => deviceNotReady
nonce {\"header\":{\"type\":\"completion\",\"name\":\"A.B\",\"requestId\":2,\"completionCode\":\"invalidToken\"}} => invalidToken
nonce dispensed {\"header\":{\"type\":\"completion\",\"name\":\"A.B\",\"requestId\":3,\"completionCode\":\"hardwareError\"}} => hardwareError
no-nonce unsolicited nonce => ask dispense";

// The text of a word.
fn text_of(word: &str) -> &str {
    match word {
        "accepted" => ACCEPTED,
        "nonce" => NONCE,
        "no-nonce" => NO_NONCE,
        "dispensed" => DISPENSED,
        "presented" => PRESENTED,
        "unsolicited" => UNSOLICITED,
        "many" => MANY,
        "ask nonce" => ASK_NONCE,
        "ask dispense" => ASK_DISPENSE,
        "ask present" => ASK_PRESENT,
        _ => word,
    }
}

#[test]
fn a_withdrawal_and_each_of_its_ends(rt: HostRuntime) -> Result<(), Fail> {
    for row in ENDS.lines() {
        assert!(rt; says(rt.alloc(), row)?, "{row}");
    }
    Ok(())
}

// Whether a withdrawal that hears a row's words says what the row says.
fn says(alloc: Global, row: &str) -> Result<bool, Fail> {
    let (words, due) = halves(row);
    Ok(last_answer(alloc, words)?.as_str() == text_of(due))
}

// Nonces, and whether a client takes them.
const NONCES: &str = "\"0\" => true
\"\" => false
\"0g\" => false
\"a\" => false
0 => false
null => false";

// Whether a client takes a nonce.
fn takes(alloc: Global, nonce: &str) -> Result<bool, Fail> {
    let text = format!(in alloc;
        "{{\"header\":{{\"type\":\"completion\",\"name\":\"A.B\",\"requestId\":1,\"completionCode\":\"success\"}},\"payload\":{{\"commandNonce\":{nonce}}}}}"
    )?;
    Ok(last_answer(alloc, text.as_str())?.as_str() != "Shape")
}

// Whether it takes one of so many digits.
fn takes_long(alloc: Global, digits: usize) -> Result<bool, Fail> {
    let nonce = format!(in alloc; "\"{}\"", "A".repeat(alloc, digits)?)?;
    takes(alloc, nonce.as_str())
}

#[test]
fn a_nonce_is_1_to_128_upper_case_digits(rt: HostRuntime) -> Result<(), Fail> {
    let alloc = rt.alloc();
    for row in NONCES.lines() {
        let (nonce, due) = halves(row);
        assert!(rt; takes(alloc, nonce)? == (due == "true"), "{nonce}");
    }
    assert!(rt; takes_long(alloc, 128)? && !takes_long(alloc, 129)?);
    Ok(())
}

fn nothing(alloc: Global) -> Value
    ensures no_float { has_float (view result) ≡ false }
    ensures depth { depth (view result) ≤ 120 }
{
    Value::Object(Map::new(alloc))
}

fn long_payload(alloc: Global, text: &str) -> Result<Value, AllocError>
    ensures no_float { IfOk result (λ v. has_float (view v) ≡ false) }
    ensures depth { IfOk result (λ v. depth (view v) ≤ 120) }
{
    json!(in alloc; {"long": text})
}

// What a desk hears, in short.
fn heard(alloc: Global, desk: &mut Desk, text: &str) -> Result<String, AllocError> {
    match desk.hear(text.as_bytes()) {
        Ok(heard) => heard_text(alloc, &heard),
        Err(fault) => format!(in alloc; "{fault:?}"),
    }
}

fn heard_text(alloc: Global, heard: &Heard) -> Result<String, AllocError> {
    match heard {
        Heard::Acknowledged { id } => format!(in alloc; "acknowledged {id}"),
        Heard::Refused { id, status } => format!(in alloc; "{} {id}", status.text()),
        Heard::Event { id } => format!(in alloc; "event {id}"),
        Heard::Completed { id, .. } => format!(in alloc; "completed {id}"),
        Heard::Unsolicited => String::from_str(alloc, "unsolicited"),
    }
}

// What a desk that asked five times hears, one text after another.
const HEARD: &str = "{\"header\":{\"type\":\"event\",\"name\":\"A.B\",\"requestId\":2}} => event 2
{\"header\":{\"type\":\"acknowledge\",\"requestId\":2}} => acknowledged 2
{\"header\":{\"type\":\"acknowledge\",\"status\":\"invalidMessage\"}} => invalidMessage 1
{\"header\":{\"type\":\"acknowledge\",\"requestId\":1}} => Stranger
{\"header\":{\"type\":\"acknowledge\",\"requestId\":3,\"status\":\"invalidRequestID\"}} => invalidRequestID 3
{\"header\":{\"type\":\"event\",\"name\":\"A.B\",\"requestId\":3}} => Stranger
{\"header\":{\"type\":\"acknowledge\",\"status\":\"tooManyRequests\"}} => tooManyRequests 4
{\"header\":{\"type\":\"completion\",\"name\":\"A.B\",\"requestId\":5,\"completionCode\":\"canceled\"}} => completed 5
{\"header\":{\"type\":\"acknowledge\"}} => Stranger
{\"header\":{\"type\":\"completion\",\"name\":\"A.B\",\"requestId\":5,\"completionCode\":\"success\"}} => Stranger
{\"header\":{\"type\":\"completion\",\"name\":\"A.B\",\"requestId\":2,\"completionCode\":\"success\"},\"payload\":[]} => Shape
{\"header\":{\"type\":\"acknowledge\",\"requestId\":2}} => acknowledged 2
{\"header\":{\"type\":\"completion\",\"name\":\"A.B\",\"requestId\":2,\"completionCode\":\"success\"}} => completed 2
{\"header\":{\"type\":\"event\",\"name\":\"A.B\",\"requestId\":0}} => Stranger
{\"header\":{\"type\":\"event\",\"name\":\"A.B\",\"requestId\":18446744073709551615}} => Stranger
{\"header\":{\"type\":\"unsolicited\",\"name\":\"A.B\"}} => unsolicited
{ => Shape";

// The same after three asks, of which the second was too long.
const HEARD_OF_THREE: &str =
    "{\"header\":{\"type\":\"acknowledge\",\"requestId\":1}} => acknowledged 1
{\"header\":{\"type\":\"acknowledge\",\"status\":\"invalidMessage\"}} => invalidMessage 2
{\"header\":{\"type\":\"acknowledge\"}} => acknowledged 3";

fn hears(rt: &impl Abort, alloc: Global, desk: &mut Desk, rows: &str) -> Result<(), Fail> {
    for row in rows.lines() {
        assert!(rt; is_heard(alloc, desk, row)?, "{row}");
    }
    Ok(())
}

// Whether a desk hears of a row's text what the row says.
fn is_heard(alloc: Global, desk: &mut Desk, row: &str) -> Result<bool, AllocError> {
    let (text, due) = halves(row);
    Ok(heard(alloc, desk, text)?.as_str() == due)
}

// A desk that asked so many times.
fn desk_of(alloc: Global, asks: u32) -> Result<Desk, Fail> {
    let mut desk = Desk::new(alloc);
    for _ in 0..asks {
        if !asks_for_nothing(alloc, &mut desk) {
            return Err("a text".into());
        }
    }
    Ok(desk)
}

fn asks_for_nothing(alloc: Global, desk: &mut Desk) -> bool {
    desk.ask("Common.Status", &nothing(alloc)).is_ok()
}

#[test]
fn what_a_desk_hears(rt: HostRuntime) -> Result<(), Fail> {
    hears(&rt, rt.alloc(), &mut desk_of(rt.alloc(), 5)?, HEARD)
}

#[test]
fn an_ask_that_is_too_long_is_refused_without_an_id(rt: HostRuntime) -> Result<(), Fail> {
    let alloc = rt.alloc();
    let mut desk = desk_of(alloc, 1)?;
    assert!(rt; asks_at_length(alloc, &mut desk)? && asks_for_nothing(alloc, &mut desk));
    hears(&rt, alloc, &mut desk, HEARD_OF_THREE)
}

// Whether an ask has more than 65,536 bytes.
fn asks_at_length(alloc: Global, desk: &mut Desk) -> Result<bool, Fail> {
    let long = "x".repeat(alloc, 65_536)?;
    let payload = long_payload(alloc, &long)?;
    Ok(match desk.ask("Common.Status", &payload) {
        Ok(text) => text.len() > 65_536,
        Err(_) => false,
    })
}

// Whether a desk hears this of a text, and nothing of it once more.
fn hears_once(alloc: Global, desk: &mut Desk, text: &str, due: &str) -> Result<bool, Fail> {
    let first = heard(alloc, desk, text)?;
    let second = heard(alloc, desk, text)?;
    Ok(first.as_str() == due && second.as_str() == "Stranger")
}

fn is_completed_once(alloc: Global, desk: &mut Desk, id: u64) -> Result<bool, Fail> {
    let due = format!(in alloc; "completed {id}")?;
    let text = format!(in alloc;
        "{{\"header\":{{\"type\":\"completion\",\"name\":\"A.B\",\"requestId\":{id},\"completionCode\":\"success\"}}}}"
    )?;
    hears_once(alloc, desk, text.as_str(), due.as_str())
}

#[test]
fn a_thousand_asks_are_answered_in_another_order(rt: HostRuntime) -> Result<(), Fail> {
    let alloc = rt.alloc();
    let mut desk = desk_of(alloc, 1000)?;
    for k in 0..1000u64 {
        assert!(rt;
            is_completed_once(alloc, &mut desk, k * 7 % 1000 + 1)?,
            "{k}"
        );
    }
    Ok(())
}
