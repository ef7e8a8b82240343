//! Texts that are answered with themselves over WebSocket on 127.0.0.1.

use crate::talk::{answered, asked};
use std::thread;
use std::thread::Threads;
use xfs_base::StdClock;
use xfs_sockets::{Origins, Ports, TcpDoors};

// The system chooses the ports.
const ANY: Ports = Ports {
    publisher: 0,
    card: 0,
    keys: 0,
    cash: 0,
};

/// Prints a port, and answers the one connection that comes there. None where nobody came.
pub fn serve(host: &HostRuntime) -> Option<u64> {
    let clock = StdClock::new(host);
    let doors = TcpDoors::open(host, host.alloc(), &clock, ANY, Origins::none()).ok()?;
    println!(host; "{}", doors.ports().card).ok()?;
    answered(host.alloc(), doors, &clock)
}

/// Asks and answers in two threads: how many texts came back.
pub fn ask<R: Threads + Sync>(rt: &R, host: &HostRuntime, texts: u32) -> Option<u64> {
    let alloc = host.alloc();
    let clock = StdClock::new(host);
    let doors = TcpDoors::open(host, alloc, &clock, ANY, Origins::none()).ok()?;
    let outward = TcpDoors::outward(host, alloc, &clock, doors.ports()).ok()?;
    let (back, _) = thread::join(
        rt,
        || asked(outward, texts),
        || answered(alloc, doors, &clock),
    );
    Some(u64::from(back))
}
