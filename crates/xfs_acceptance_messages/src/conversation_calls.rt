ghost use Rattle.std.specs.Prelude.{IfSome, [], ◌∷◌};
ghost use Rattle.xfs_conversation.specs.Conversation.{Conversation};

use serde_json::{Map, Value};
use std::alloc::Global;
use std::test::Fail;
use xfs_conversation::is_request_id;
use xfs_envelope::{Code, acknowledge, completion, read};

#[test]
fn request_ids_go_from_1_to_2147483647(rt: HostRuntime) {
    for (id, answer) in [
        (0, false),
        (1, true),
        (2147483647, true),
        (2147483648, false),
        (u64::MAX, false),
    ] {
        assert!(rt; is_request_id(id) == answer, "{id}");
    }
}

// The first text of a connection, with the frames of a service that completes it at once.
fn answered_at_once(alloc: Global, text: &[u8]) -> Option<(Vec<u8>, Vec<u8>)>
    ensures { IfSome result (λ frames. Conversation (text.now ∷ []) (frames.0.items ∷ frames.1.items ∷ []) []) }
{
    let Ok(command) = read(alloc, text) else {
        return None;
    };
    if !is_request_id(command.id) {
        return None;
    }
    let payload = Value::Object(Map::new(alloc));
    let first = acknowledge(alloc, Some(&command.name), Some(command.id), None);
    let second = completion(alloc, &command.name, command.id, Code::Success, &payload);
    match (first, second) {
        (Ok(first), Ok(second)) => Some((first, second)),
        _ => None,
    }
}

#[test]
fn an_exchange_of_the_envelope_is_a_conversation(rt: HostRuntime) -> Result<(), Fail> {
    let text = "{\"header\":{\"name\":\"Common.Status\",\"requestId\":1,\"type\":\"command\"}}";
    let (first, second) = answered_at_once(rt.alloc(), text.as_bytes()).ok_or("two frames")?;
    let accepted = "{\"header\":{\"name\":\"Common.Status\",\"requestId\":1,\
                    \"type\":\"acknowledge\",\"version\":\"2.0\"}}";
    let completed = "{\"header\":{\"completionCode\":\"success\",\"name\":\"Common.Status\",\
                     \"requestId\":1,\"type\":\"completion\",\"version\":\"2.0\"},\"payload\":{}}";
    assert!(rt; first.as_slice() == accepted.as_bytes());
    assert!(rt; second.as_slice() == completed.as_bytes());
    Ok(())
}
