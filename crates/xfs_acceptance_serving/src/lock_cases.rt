//! Cases at the lock. What is told last is what the machine tells, as `tell_machine` says.

use crate::cases::play;
use std::test::Fail;

// A post and two steps of work by the first caller, and how many entries of the chronicle the second one's seat had seen
// before it took its turn, and after.
const CALLERS: &str = r#"callers cash
> {"header":{"name":"Common.GetCommandNonce","requestId":1,"type":"command"}}
=> (true, Some(2), Some(3))
{"header":{"name":"Common.GetCommandNonce","requestId":1,"type":"acknowledge","version":"2.0"}}
{"header":{"completionCode":"success","name":"Common.GetCommandNonce","requestId":1,"type":"completion","version":"2.0"},"payload":{"commandNonce":"E56A5D4028BD86530000000000000001"}}
0 1 K1 0 0"#;

#[test]
fn what_one_caller_posts_another_finds(rt: HostRuntime) -> Result<(), Fail> {
    play(&rt, rt.alloc(), CALLERS)
}

// The service, which take and which give of the link fail, by how many milliseconds the clock goes on for each text and
// each step of work; what comes over the link before it closes. A nonce is issued in one step of work, and told in the
// next. An amount that isn't written in digits alone is one of a command that is accepted, whose members are bad. Where
// the clock stands a read of a card waits on; else it times out after 100 milliseconds.
const SESSIONS: &str = r#"session cash 0 0 0
> {"header":{"name":"Common.GetCommandNonce","requestId":1,"type":"command"}}
> {"header":{"name":"Common.Status","requestId":2,"type":"command"}}
=> Closed
{"header":{"name":"Common.GetCommandNonce","requestId":1,"type":"acknowledge","version":"2.0"}}
{"header":{"name":"Common.Status","requestId":2,"type":"acknowledge","version":"2.0"}}
{"header":{"completionCode":"success","name":"Common.Status","requestId":2,"type":"completion","version":"2.0"},"payload":{"common":{"device":"online"}}}
{"header":{"completionCode":"success","name":"Common.GetCommandNonce","requestId":1,"type":"completion","version":"2.0"},"payload":{"commandNonce":"E56A5D4028BD86530000000000000001"}}
0 1 K1 0 0

session cash 0 0 0
> {"header":{"name":"CashDispenser.Dispense","requestId":1,"type":"command"},"payload":{"denomination":{"currencies":{"EUR":1e1}},"mix":"minimum"}}
> {"header":{"name":"Common.Status","requestId":2,"type":"command"}}
=> Closed
{"header":{"name":"CashDispenser.Dispense","requestId":1,"type":"acknowledge","version":"2.0"}}
{"header":{"name":"Common.Status","requestId":2,"type":"acknowledge","version":"2.0"}}
{"header":{"completionCode":"success","name":"Common.Status","requestId":2,"type":"completion","version":"2.0"},"payload":{"common":{"device":"online"}}}
{"header":{"completionCode":"invalidData","name":"CashDispenser.Dispense","requestId":1,"type":"completion","version":"2.0"},"payload":{}}
0 0 K 0 0

session card 0 0 0
> {"header":{"name":"CardReader.ReadRawData","requestId":1,"timeout":100,"type":"command"},"payload":{"track2":true}}
> {"header":{"name":"Common.Status","requestId":2,"type":"command"}}
> {"header":{"name":"Common.Status","requestId":3,"type":"command"}}
=> Closed
{"header":{"name":"CardReader.ReadRawData","requestId":1,"type":"acknowledge","version":"2.0"}}
{"header":{"name":"CardReader.InsertCardEvent","requestId":1,"type":"event","version":"2.0"},"payload":{}}
{"header":{"name":"Common.Status","requestId":2,"type":"acknowledge","version":"2.0"}}
{"header":{"completionCode":"success","name":"Common.Status","requestId":2,"type":"completion","version":"2.0"},"payload":{"common":{"device":"online"}}}
{"header":{"name":"Common.Status","requestId":3,"type":"acknowledge","version":"2.0"}}
{"header":{"completionCode":"success","name":"Common.Status","requestId":3,"type":"completion","version":"2.0"},"payload":{"common":{"device":"online"}}}
0 0 K 0 0

session card 0 0 50
> {"header":{"name":"CardReader.ReadRawData","requestId":1,"timeout":100,"type":"command"},"payload":{"track2":true}}
> {"header":{"name":"Common.Status","requestId":2,"type":"command"}}
> {"header":{"name":"Common.Status","requestId":3,"type":"command"}}
=> Closed
{"header":{"name":"CardReader.ReadRawData","requestId":1,"type":"acknowledge","version":"2.0"}}
{"header":{"name":"CardReader.InsertCardEvent","requestId":1,"type":"event","version":"2.0"},"payload":{}}
{"header":{"name":"Common.Status","requestId":2,"type":"acknowledge","version":"2.0"}}
{"header":{"completionCode":"success","name":"Common.Status","requestId":2,"type":"completion","version":"2.0"},"payload":{"common":{"device":"online"}}}
{"header":{"name":"Common.Status","requestId":3,"type":"acknowledge","version":"2.0"}}
{"header":{"completionCode":"success","name":"Common.Status","requestId":3,"type":"completion","version":"2.0"},"payload":{"common":{"device":"online"}}}
{"header":{"completionCode":"timeOut","name":"CardReader.ReadRawData","requestId":1,"type":"completion","version":"2.0"},"payload":{}}
0 0 K 0 0"#;

#[test]
fn a_session_sends_what_its_board_hands_over(rt: HostRuntime) -> Result<(), Fail> {
    play(&rt, rt.alloc(), SESSIONS)
}

// A Status with blanks behind it comes, then another, and then no more.
const LONG: &str = r#"session cash 0 0 0
>> {"header":{"name":"Common.Status","requestId":2,"type":"command"}}
> {"header":{"name":"Common.Status","requestId":2,"type":"command"}}
=> Closed
{"header":{"status":"invalidMessage","type":"acknowledge","version":"2.0"}}
{"header":{"name":"Common.Status","requestId":2,"type":"acknowledge","version":"2.0"}}
{"header":{"completionCode":"success","name":"Common.Status","requestId":2,"type":"completion","version":"2.0"},"payload":{"common":{"device":"online"}}}
0 0 K 0 0"#;

#[test]
fn a_text_of_a_million_bytes_is_acknowledged(rt: HostRuntime) -> Result<(), Fail> {
    play(&rt, rt.alloc(), LONG)
}

// The second take of the one link fails, or its second give.
const FAILING: &str = r#"sessions card 2 0
> {"header":{"name":"CardReader.ReadRawData","requestId":1,"timeout":100,"type":"command"},"payload":{"track2":true}}
> {"header":{"name":"Common.Status","requestId":2,"type":"command"}}
beside cash 0 0
> {"header":{"name":"Common.Status","requestId":2,"type":"command"}}
=> Failed
{"header":{"name":"CardReader.ReadRawData","requestId":1,"type":"acknowledge","version":"2.0"}}
{"header":{"name":"CardReader.InsertCardEvent","requestId":1,"type":"event","version":"2.0"},"payload":{}}
Closed
{"header":{"name":"Common.Status","requestId":2,"type":"acknowledge","version":"2.0"}}
{"header":{"completionCode":"success","name":"Common.Status","requestId":2,"type":"completion","version":"2.0"},"payload":{"common":{"device":"online"}}}
0 0 K 0 0

sessions card 0 2
> {"header":{"name":"CardReader.ReadRawData","requestId":1,"timeout":100,"type":"command"},"payload":{"track2":true}}
> {"header":{"name":"Common.Status","requestId":2,"type":"command"}}
beside cash 0 0
> {"header":{"name":"Common.Status","requestId":2,"type":"command"}}
=> Failed
{"header":{"name":"CardReader.ReadRawData","requestId":1,"type":"acknowledge","version":"2.0"}}
Closed
{"header":{"name":"Common.Status","requestId":2,"type":"acknowledge","version":"2.0"}}
{"header":{"completionCode":"success","name":"Common.Status","requestId":2,"type":"completion","version":"2.0"},"payload":{"common":{"device":"online"}}}
0 0 K 0 0"#;

#[test]
fn a_link_that_fails_leaves_the_session_beside_it_as_it_is(rt: HostRuntime) -> Result<(), Fail> {
    play(&rt, rt.alloc(), FAILING)
}

// What the watch of a device tells once a command was posted.
const WORKERS: &str = r#"worker card card
> {"header":{"name":"CardReader.ReadRawData","requestId":1,"type":"command"},"payload":{"track2":true}}
=> (true, Done)
{"header":{"name":"CardReader.ReadRawData","requestId":1,"type":"acknowledge","version":"2.0"}}
{"header":{"name":"CardReader.InsertCardEvent","requestId":1,"type":"event","version":"2.0"},"payload":{}}
{"header":{"name":"CardReader.MediaInsertedEvent","requestId":1,"type":"event","version":"2.0"},"payload":{}}
{"header":{"completionCode":"success","name":"CardReader.ReadRawData","requestId":1,"type":"completion","version":"2.0"},"payload":{"track2":{"data":"OzEyMzQ=","status":"ok"}}}
1 0 K 0 0

worker card fault
> {"header":{"name":"CardReader.ReadRawData","requestId":1,"type":"command"},"payload":{"track2":true}}
=> (true, Done)
{"header":{"name":"CardReader.ReadRawData","requestId":1,"type":"acknowledge","version":"2.0"}}
{"header":{"name":"CardReader.InsertCardEvent","requestId":1,"type":"event","version":"2.0"},"payload":{}}
{"header":{"completionCode":"hardwareError","name":"CardReader.ReadRawData","requestId":1,"type":"completion","version":"2.0"},"payload":{}}
1 0 K 0 0

worker keys one
> {"header":{"name":"Keyboard.DataEntry","requestId":1,"type":"command"},"payload":{"maxLen":1,"autoEnd":true,"activeKeys":{"one":{}}}}
=> (true, Done)
{"header":{"name":"Keyboard.DataEntry","requestId":1,"type":"acknowledge","version":"2.0"}}
{"header":{"name":"Keyboard.KeyEvent","requestId":1,"type":"event","version":"2.0"},"payload":{"digit":"one"}}
{"header":{"completionCode":"success","name":"Keyboard.DataEntry","requestId":1,"type":"completion","version":"2.0"},"payload":{"completion":"auto","keys":1,"pinKeys":[{"digit":"one"}]}}
1 0 K 0 0

worker keys fault
> {"header":{"name":"Keyboard.DataEntry","requestId":1,"type":"command"},"payload":{"maxLen":1,"autoEnd":true,"activeKeys":{"one":{}}}}
=> (true, Done)
{"header":{"name":"Keyboard.DataEntry","requestId":1,"type":"acknowledge","version":"2.0"}}
{"header":{"completionCode":"hardwareError","name":"Keyboard.DataEntry","requestId":1,"type":"completion","version":"2.0"},"payload":{}}
1 0 K 0 0"#;

#[test]
fn a_worker_hands_on_what_its_watch_tells(rt: HostRuntime) -> Result<(), Fail> {
    play(&rt, rt.alloc(), WORKERS)
}
