ghost use Rattle.std.specs.Prelude.{◌≡◌, ◌≤◌, false, IsSome};
ghost use Rattle.serde_json.specs.Data.{depth};
ghost use Rattle.serde_json.specs.Find.{as_object};
ghost use Rattle.serde_json.specs.View.{view};
ghost use Rattle.serde_json.specs.Written.{has_float};

use std::alloc::Global;
use std::test::Fail;
use xfs_base::Currency;
use xfs_client::hearing::{ask, hear, next};
use xfs_client::{Desk, HearFault, Heard, Move, Withdrawal};
use xfs_json::{Map, Value};

const ACCEPTED: &str =
    "{\"header\":{\"name\":\"Common.Status\",\"requestId\":1,\"type\":\"acknowledge\",\"version\":\"2.0\"}}";

const COMPLETED: &str =
    "{\"header\":{\"completionCode\":\"success\",\"name\":\"Common.Status\",\"requestId\":1,\"type\":\"completion\",\"version\":\"2.0\"},\"payload\":{}}";

fn nothing(alloc: Global) -> Value
    ensures object { IsSome (as_object (view result)) }
    ensures no_float { has_float (view result) ≡ false }
    ensures depth { depth (view result) ≤ 120 }
{
    Value::Object(Map::new(alloc))
}

#[test]
fn a_desk_knows_the_frames_of_its_ask(rt: HostRuntime) -> Result<(), Fail> {
    let mut desk = Desk::new(rt.alloc());
    let text = ask(&mut desk, "Common.Status", &nothing(rt.alloc()))
        .ok()
        .ok_or("a text")?;
    assert!(rt;
        text.as_slice()
            == b"{\"header\":{\"name\":\"Common.Status\",\"requestId\":1,\"type\":\"command\"},\"payload\":{}}".as_slice()
    );
    let accepted = hear(&mut desk, ACCEPTED.as_bytes());
    assert!(rt; matches!(&accepted, Ok(Heard::Acknowledged { id: 1 })));
    let completed = hear(&mut desk, COMPLETED.as_bytes());
    assert!(rt; matches!(&completed, Ok(Heard::Completed { id: 1, .. })));
    // No lawful conversation has this frame twice.
    let again = hear(&mut desk, COMPLETED.as_bytes());
    assert!(rt; matches!(&again, Err(HearFault::Stranger)));
    Ok(())
}

#[test]
fn a_withdrawal_waits_for_its_nonce(rt: HostRuntime) -> Result<(), Fail> {
    let euro = Currency::new(b"EUR").ok_or("letters")?;
    let mut withdrawal = Withdrawal::new(rt.alloc(), euro, 70, [0x0b; 32]);
    withdrawal.start()?;
    let accepted = "{\"header\":{\"type\":\"acknowledge\",\"requestId\":1}}";
    let moved = next(&mut withdrawal, accepted.as_bytes());
    assert!(rt; matches!(&moved, Ok(Move::Wait)));
    Ok(())
}
