//! Servers, by their clients' letters. What is told first is how a server ends, and what its machine tells, as `tell_machine`
//! says; then how many clients heard all that they were to, how many links were let go, and whether one was held back.

use crate::cases::play;
use std::test::Fail;

// How many connections the server takes, what the doors do behind the clients, and how many clients the gate holds back.
// A link fails in the third to the fifth case, alone and beside one that doesn't. In the sixth each service answers what it
// alone has, and the workers of the card slot and of the key pad hand on what is waited for. In the last the session that
// runs as the doors fail is served to its end.
const ENDINGS: &str = "server 0 stay answered 0
=> Served 0 0 K 0 0
0 0 held false amiss false

server 1 stay answered 0 n
=> Served 0 1 K1 0 0
1 1 held false amiss false

server 1 stay answered 0 l
=> Served 0 0 K 0 0
0 1 held false amiss false

server 2 stay answered 0 ln
=> Served 0 1 K1 0 0
1 2 held false amiss false

server 2 stay answered 0 cs
=> Served 0 0 K 0 0
2 2 held false amiss false

server 4 stay answered 0 vren
=> Served 0 1 K1 0 0
4 4 held false amiss false

server 1 fail answered 0
=> Failed 0 0 K 0 0
0 0 held false amiss false

server 2 fail answered 0 n
=> Failed 0 1 K1 0 0
1 1 held false amiss false";

#[test]
fn a_server_ends_when_its_sessions_have(rt: HostRuntime) -> Result<(), Fail> {
    play(&rt, rt.alloc(), ENDINGS)
}

// The client that came second is held until the third was told its nonce, and the first until both were answered. So a
// nonce of one client replaces that of another; and what one is told another dispenses and a third has put out, where
// the worker of the outlet takes it.
const ONE_BEHIND_ANOTHER: &str = "server 3 stay answered 2 t2n
=> Served 0 2 K12 0 0
3 3 held true amiss false

server 3 stay answered 2 pdn
=> Served 0 1 K1TODOD 1 0
3 3 held true amiss false";

#[test]
fn what_one_client_does_another_finds(rt: HostRuntime) -> Result<(), Fail> {
    play(&rt, rt.alloc(), ONE_BEHIND_ANOTHER)
}

// 64 clients, as many as have room, and one without. Nobody is heard until a link was let go: that of the client without
// room.
const CROWD: &str =
    "server 65 stay let_go 64 ssssssssssssssssssssssssssssssssssssssssssssssssssssssssssssssssa
=> Served 0 0 K 0 0
64 65 held true amiss false";

#[test]
fn a_client_without_room_is_let_go_and_counts(rt: HostRuntime) -> Result<(), Fail> {
    play(&rt, rt.alloc(), CROWD)
}
