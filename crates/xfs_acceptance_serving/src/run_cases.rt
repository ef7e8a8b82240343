//! Runs of `client` and `serve`. What is told first is the status, how many bytes stand in the journal, and what was written.

use crate::cases::play;
use std::test::Fail;

// Which call of the doors fails, whether the link closes or stays quiet, and what it hands over; how many texts it was
// given, where it was dialled.
const WITHDRAWALS: &str = r#"client client,EUR,70 0 stays 0
> {"header":{"name":"Common.GetCommandNonce","requestId":1,"type":"acknowledge","version":"2.0"}}
> {"header":{"completionCode":"success","name":"Common.GetCommandNonce","requestId":1,"type":"completion","version":"2.0"},"payload":{"commandNonce":"E56A5D4028BD86530000000000000001"}}
> {"header":{"name":"CashDispenser.Dispense","requestId":2,"type":"acknowledge","version":"2.0"}}
> {"header":{"completionCode":"success","name":"CashDispenser.Dispense","requestId":2,"type":"completion","version":"2.0"},"payload":{"denomination":{"currencies":{"EUR":70},"values":{"unit2":1,"unit3":1}}}}
> {"header":{"name":"CashDispenser.Present","requestId":3,"type":"acknowledge","version":"2.0"}}
> {"header":{"completionCode":"success","name":"CashDispenser.Present","requestId":3,"type":"completion","version":"2.0"},"payload":{}}
=> 0 0
withdrawal done
3

client client,EUR,70 0 closes 0
=> 0 0
withdrawal ended: closed
1

client client,EUR,70 0 stays 0
> {"header":{"name":"Common.NonceClearedEvent","requestId":9,"type":"event","version":"2.0"},"payload":{}}
=> 0 0
withdrawal ended: bad answer
1

client client,EUR,70 0 stays 0
=> 11 0
withdrawal ended: quiet
1

client client,EUR,70 1 stays 0
=> 9 0
-"#;

#[test]
fn a_withdrawal_over_each_link(rt: HostRuntime) -> Result<(), Fail> {
    play(&rt, rt.alloc(), WITHDRAWALS)
}

// Which call of the doors fails, how many clients come, each with one text before it closes, and which call of the disk
// fails. Nothing is dialled.
const SERVERS: &str = r#"serve serve,1 0 closes 1 0
> {"header":{"name":"Common.Status","requestId":1,"type":"command"}}
=> 0 213
-

serve serve,+02 0 closes 3 0
> {"header":{"name":"Common.Status","requestId":1,"type":"command"}}
=> 0 213
-

serve serve,1 1 closes 0 0
> {"header":{"name":"Common.Status","requestId":1,"type":"command"}}
=> 9 213
-

serve serve,2 2 closes 1 0
> {"header":{"name":"Common.Status","requestId":1,"type":"command"}}
=> 9 213
-

serve serve,1 0 closes 1 1
> {"header":{"name":"Common.Status","requestId":1,"type":"command"}}
=> 6 0
boot: disk
-"#;

#[test]
fn a_server_over_doors_in_memory(rt: HostRuntime) -> Result<(), Fail> {
    play(&rt, rt.alloc(), SERVERS)
}

// The client that reads a card is held until the other is answered; then the card of the bench is put in. A client whose
// link fails leaves the other as it is. The journal has its Start alone.
const SIDE_BY_SIDE: &str = r#"run serve,2 stay answered 1 rs
=> 0 213
2 2 held true amiss false

run serve,2 stay answered 0 cs
=> 0 213
2 2 held false amiss false"#;

#[test]
fn both_clients_are_answered_side_by_side(rt: HostRuntime) -> Result<(), Fail> {
    play(&rt, rt.alloc(), SIDE_BY_SIDE)
}
