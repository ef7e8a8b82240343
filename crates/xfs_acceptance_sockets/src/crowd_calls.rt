//! A crowd at the dispenser of which one doesn't read, and a visitor at each port.

use crate::bench::machine;
use crate::clients::Shared;
use crate::withdrawals::{fill_up, opened, outward, serve};
use std::alloc::Global;
use std::io::ErrorKind;
use std::net::{Net, TcpListener, TcpStream};
use std::random::RandomSource;
use std::sync::Wait;
use std::test::Fail;
use std::thread::Threads;
use std::{thread, time};
use xfs_base::{Clock, Memory, Service, StdClock};
use xfs_board::Served;
use xfs_disk::Disk;
use xfs_machine::Machine;
use xfs_mech::Mechanism;
use xfs_server::{Doors, Link, OpenGate, Taking};
use xfs_serving::Ending as Over;
use xfs_sockets::Ports;

// So many clients come to the dispenser: one that doesn't read, one that has the nonces, and these.
const OTHERS: usize = 62;

// So often a nonce is cleared.
const ROUNDS: u32 = 10;

// So often a text is looked for, a millisecond apart.
const LOOKS: u32 = 10_000;

const STATUS: &str =
    "{\"header\":{\"name\":\"Common.Status\",\"requestId\":1,\"type\":\"command\"}}";

const GET: &str =
    "{\"header\":{\"name\":\"Common.GetCommandNonce\",\"requestId\":1,\"type\":\"command\"}}";

const CLEAR: &str =
    "{\"header\":{\"name\":\"Common.ClearCommandNonce\",\"requestId\":1,\"type\":\"command\"}}";

const CLEARED: &str =
    "{\"header\":{\"name\":\"Common.NonceClearedEvent\",\"type\":\"unsolicited\",\"version\":\"2.0\"},\"payload\":{\"reasonDescription\":\"cleared\"}}";

// A command of each service, and how it is completed there; elsewhere it is no command.
const COMMANDS: [(Service, &str, &str); 4] = [
    (
        Service::Publisher,
        "ServicePublisher.GetServices",
        "success",
    ),
    (Service::Card, "CardReader.Move", "commandErrorCode"),
    (Service::Keys, "Keyboard.DataEntry", "invalidData"),
    (Service::Cash, "CashDispenser.Reject", "commandErrorCode"),
];

/// Who comes.
#[derive(Clone, Copy)]
enum Visit {
    Crowd,
    EachPort,
}

// The next text, where one comes in time.
fn hears<L: Link, C: Clock>(link: &mut L, clock: &C, front: &str) -> bool {
    for _ in 0..LOOKS {
        match link.take() {
            Taking::Text(text) => return text.list().starts_with(front.as_bytes()),
            Taking::Quiet => clock.pause(),
            Taking::Closed | Taking::Failed | Taking::Memory => return false,
        }
    }
    false
}

// Whether a command is acknowledged and then completed by a text that begins so.
fn is_answered<L: Link, C: Clock>(link: &mut L, clock: &C, command: &str, front: &str) -> bool {
    link.give(command.as_bytes()).is_ok() && hears(link, clock, "") && hears(link, clock, front)
}

// Whether it hears that a nonce was cleared, so often and nothing else.
fn hears_so_often<L: Link, C: Clock>(link: &mut L, clock: &C, often: u32) -> bool {
    for _ in 0..often {
        if !hears(link, clock, CLEARED) {
            return false;
        }
    }
    matches!(link.take(), Taking::Quiet)
}

// Whether each of these hears it.
fn all_hear<L: Link, C: Clock>(links: &mut [L], clock: &C, often: u32) -> bool {
    for link in links {
        if !hears_so_often(link, clock, often) {
            return false;
        }
    }
    true
}

// Whether each of these is answered, and so has a connection.
fn all_are_in<L: Link, C: Clock>(links: &mut [L], clock: &C) -> bool {
    for link in links {
        if !is_answered(link, clock, STATUS, "") {
            return false;
        }
    }
    true
}

// So many links to the dispenser.
fn dialled<O: Doors>(doors: &mut O, alloc: Global, count: usize) -> Result<Vec<O::Link>, Memory> {
    let mut links = Vec::new(alloc);
    for _ in 0..count {
        match doors.dial(Service::Cash) {
            Ok(link) => links.push(link)?,
            Err(_) => return Ok(links),
        }
    }
    Ok(links)
}

// One client has a nonce issued and cleared, which all the others hear at once.
fn is_heard_by_all<L: Link, C: Clock>(asker: &mut L, others: &mut [L], clock: &C) -> bool {
    is_answered(asker, clock, GET, "")
        && is_answered(asker, clock, CLEAR, CLEARED)
        && hears(asker, clock, "")
        && all_hear(others, clock, 1)
}

// Whether each round of the one who asks is heard.
fn are_heard<L: Link, C: Clock>(askers: &mut [L], others: &mut [L], clock: &C) -> bool {
    let Some(asker) = askers.first_mut() else {
        return false;
    };
    for _ in 0..ROUNDS {
        if !is_heard_by_all(asker, others, clock) {
            return false;
        }
    }
    true
}

// All rounds are heard by all but the one that doesn't read: it finds all of it in the end.
fn is_announced<O: Doors, C: Clock>(
    doors: &mut O,
    alloc: Global,
    clock: &C,
) -> Result<bool, Memory> {
    let mut silent = dialled(doors, alloc, 1)?;
    let mut others = dialled(doors, alloc, OTHERS)?;
    let mut askers = dialled(doors, alloc, 1)?;
    Ok(
        silent.len() == 1
            && others.len() == OTHERS
            && all_are_in(&mut others, clock)
            && are_heard(&mut askers, &mut others, clock)
            && all_hear(&mut silent, clock, ROUNDS),
    )
}

fn command_of(alloc: Global, name: &str) -> Result<String, Memory> {
    Ok(format!(in alloc;
        "{{\"header\":{{\"name\":\"{name}\",\"requestId\":1,\"type\":\"command\"}}}}"
    )?)
}

// How the text begins by which a command is completed with this code.
fn front_of(alloc: Global, name: &str, code: &str) -> Result<String, Memory> {
    Ok(format!(in alloc; "{{\"header\":{{\"completionCode\":\"{code}\",\"name\":\"{name}\"")?)
}

// Whether a command is completed with this code.
fn completes<L: Link, C: Clock>(
    link: &mut L,
    alloc: Global,
    clock: &C,
    name: &str,
    code: &str,
) -> Result<bool, Memory> {
    let command = command_of(alloc, name)?;
    let front = front_of(alloc, name, code)?;
    Ok(is_answered(link, clock, &command, &front))
}

// Whether a service completes its own command, and no other's.
fn completes_its_own<L: Link, C: Clock>(
    link: &mut L,
    alloc: Global,
    clock: &C,
    service: Service,
) -> Result<bool, Memory> {
    for (its, name, own) in COMMANDS {
        let code = if its == service {
            own
        } else {
            "invalidCommand"
        };
        if !completes(link, alloc, clock, name, code)? {
            return Ok(false);
        }
    }
    Ok(true)
}

// Whether the service at a port completes its own command, and no other's.
fn is_apart<O: Doors, C: Clock>(
    doors: &mut O,
    alloc: Global,
    clock: &C,
    service: Service,
) -> Result<bool, Memory> {
    match doors.dial(service) {
        Ok(mut link) => completes_its_own(&mut link, alloc, clock, service),
        Err(_) => Ok(false),
    }
}

// Whether each service completes its own command, at its own port.
fn are_apart<O: Doors, C: Clock>(doors: &mut O, alloc: Global, clock: &C) -> Result<bool, Memory> {
    for (service, _, _) in COMMANDS {
        if !is_apart(doors, alloc, clock, service)? {
            return Ok(false);
        }
    }
    Ok(true)
}

// Whether nobody listens at this port on another address of this machine.
fn is_kept_at_home<R: Net<Listener = TcpListener, Stream = TcpStream>>(rt: &R, port: u16) -> bool {
    match TcpStream::connect(rt, ("127.0.0.2", port)) {
        Ok(_) => false,
        Err(error) => error.kind() == ErrorKind::ConnectionRefused,
    }
}

fn are_kept_at_home<R: Net<Listener = TcpListener, Stream = TcpStream>>(
    rt: &R,
    ports: &Ports,
) -> bool {
    is_kept_at_home(rt, ports.publisher)
        && is_kept_at_home(rt, ports.card)
        && is_kept_at_home(rt, ports.keys)
        && is_kept_at_home(rt, ports.cash)
}

// Whether all goes as it should with those who come.
fn goes_well<
    R: Net<Listener = TcpListener, Stream = TcpStream> + RandomSource + Sync,
    C: Clock + Sync,
>(shared: &Shared<R, C>, visit: Visit) -> bool {
    let (alloc, clock) = (shared.alloc, shared.clock);
    let Some(mut doors) = outward(shared) else {
        return false;
    };
    match visit {
        Visit::Crowd => is_announced(&mut doors, alloc, clock) == Ok(true),
        Visit::EachPort => {
            are_apart(&mut doors, alloc, clock) == Ok(true)
                && are_kept_at_home(shared.rt, &shared.ports)
        }
    }
}

// Whether all goes as it should; then the server is let end.
fn comes<R: Net<Listener = TcpListener, Stream = TcpStream> + RandomSource + Sync, C: Clock + Sync>(
    shared: &Shared<R, C>,
    visit: Visit,
) -> bool {
    let went_well = goes_well(shared, visit);
    fill_up(shared);
    went_well
}

// Those who come on their side, the server on its.
fn side_by_side<
    R: Net<Listener = TcpListener, Stream = TcpStream> + RandomSource + Threads + Wait + Sync,
    M: Mechanism + Send,
    D: Disk + Send,
    O: Doors + Drop,
    C: Clock + Sync,
>(shared: &Shared<R, C>, machine: Machine<M, D>, doors: O, visit: Visit) -> (bool, Served<M, D>) {
    thread::join(
        shared.rt,
        || comes(shared, visit),
        || serve(shared, machine, doors, &OpenGate),
    )
}

// Whether all were served, and nobody is left.
fn is_over<M: Mechanism, D: Disk>(served: &Served<M, D>) -> bool {
    served.ending == Over::Served && served.machine.open_count() == 0
}

fn are_served<
    R: Net<Listener = TcpListener, Stream = TcpStream> + RandomSource + Threads + Wait + Sync,
    M: Mechanism + Send,
    D: Disk + Send,
    O: Doors + Drop,
    C: Clock + Sync,
>(shared: &Shared<R, C>, machine: Machine<M, D>, doors: O, visit: Visit) -> bool {
    let (went_well, served) = side_by_side(shared, machine, doors, visit);
    went_well && is_over(&served)
}

// Whether those who come to a machine by these doors are served.
fn is_served_by<
    R: Net<Listener = TcpListener, Stream = TcpStream> + RandomSource + Threads + Wait + Sync,
    O: Doors + Drop,
    C: Clock + Sync,
>(
    rt: &R,
    alloc: Global,
    clock: &C,
    doors: O,
    ports: Ports,
    (visit, count): (Visit, u32),
) -> Result<bool, Fail> {
    let shared = Shared::new(rt, alloc, clock, ports, count).ok_or("the currency")?;
    let machine = machine(alloc)?;
    Ok(are_served(&shared, machine, doors, visit))
}

// The same of so many connections at the ports that the system chooses.
fn is_served<
    R: Net<Listener = TcpListener, Stream = TcpStream>
        + RandomSource
        + time::Clock
        + Threads
        + Wait
        + Sync,
>(rt: &R, alloc: Global, visit: Visit, count: u32) -> Result<bool, Fail> {
    let clock = StdClock::new(rt);
    let doors = opened(rt, alloc, &clock).ok_or("the ports")?;
    let ports = doors.ports();
    is_served_by(rt, alloc, &clock, doors, ports, (visit, count))
}

#[test]
fn a_crowd_is_served(rt: HostRuntime) -> Result<(), Fail> {
    assert!(rt; is_served(&rt, rt.alloc(), Visit::Crowd, 64)?);
    Ok(())
}

#[test]
fn a_visitor_at_each_port_is_served(rt: HostRuntime) -> Result<(), Fail> {
    assert!(rt; is_served(&rt, rt.alloc(), Visit::EachPort, 4)?);
    Ok(())
}
