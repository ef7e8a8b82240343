//! Listeners that close, ports from a first, and what a dialled link was handed last.

use crate::peers::{
    OpenDoors, OpenLink, clock, connected, gives, next_link, nobody_comes, opened, outward, peer_of,
};
use std::thread;
use std::thread::Threads;
use xfs_base::Service;
use xfs_server::{Doors, Link, Taking};
use xfs_sockets::Ports;

#[test]
fn ports_go_up_from_the_first(rt: HostRuntime) {
    let four = Ports {
        publisher: 6000,
        card: 6001,
        keys: 6002,
        cash: 6003,
    };
    assert_eq!(rt; Ports::from_first(6000), Some(four));
    assert!(rt; Ports::from_first(65_532).is_some());
    assert!(rt; Ports::from_first(65_533).is_none());
}

// Whether nobody listens at any of these ports.
fn are_closed(rt: &HostRuntime, ports: &Ports) -> bool {
    connected(rt, ports.publisher).is_none()
        && connected(rt, ports.card).is_none()
        && connected(rt, ports.keys).is_none()
        && connected(rt, ports.cash).is_none()
}

#[test]
fn the_next_is_refused_once_so_many_have_come(rt: HostRuntime) {
    let clock = clock();
    let mut doors = opened(&rt, &clock).expect(&rt, "ports");
    let ports = doors.ports();
    doors.close_after(2);
    let _first = peer_of(&rt, &mut doors).expect(&rt, "a connection");
    assert!(rt; connected(&rt, ports.cash).is_some());
    let _second = peer_of(&rt, &mut doors).expect(&rt, "a connection");
    assert!(rt; are_closed(&rt, &ports));
    assert!(rt; nobody_comes(&mut doors));
}

// Gives a text over a dialled link, and answers whether the text that came back is kept, and none before it.
fn keeps(mut doors: OpenDoors<'_>) -> bool {
    match doors.dial(Service::Card) {
        Ok(mut link) => {
            link.last_text().is_empty() && gives(&mut link, b"ask") && keeps_what_comes(&mut link)
        }
        Err(_) => false,
    }
}

fn keeps_what_comes(link: &mut OpenLink<'_>) -> bool {
    for _ in 0..200 {
        if matches!(link.take(), Taking::Text(_)) {
            return link.last_text() == b"ask".as_slice();
        }
    }
    false
}

// Answers a text of the next connection with itself; what came in is not kept.
fn echoes(mut doors: OpenDoors<'_>) -> bool {
    match next_link(&mut doors) {
        Some((_, mut link)) => echoes_over(&mut link),
        None => false,
    }
}

fn echoes_over(link: &mut OpenLink<'_>) -> bool {
    for _ in 0..200 {
        if let Taking::Text(text) = link.take() {
            return link.last_text().is_empty() && gives(link, text.list());
        }
    }
    false
}

// What the one side makes of doors that dial, and the other of doors that they dial.
fn both<R: Threads>(rt: &R, outward: OpenDoors<'_>, doors: OpenDoors<'_>) -> (bool, bool) {
    thread::join(rt, move || keeps(outward), move || echoes(doors))
}

#[test]
fn a_dialled_link_keeps_its_last_text(rt: HostRuntime) {
    let clock = clock();
    let doors = opened(&rt, &clock).expect(&rt, "ports");
    let outward = outward(&rt, &clock, doors.ports()).expect(&rt, "doors");
    assert!(rt; both(&rt, outward, doors) == (true, true));
}
