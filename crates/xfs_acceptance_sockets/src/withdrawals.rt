//! Eight clients, served at once.

use crate::account::{Account, account_of};
use crate::bench::machine;
use crate::clients::Shared;
use crate::steps::Steps;
use std::alloc::{AllocError, Global};
use std::net::{Net, TcpListener, TcpStream};
use std::random::RandomSource;
use std::sync::Wait;
use std::sync::atomic::{AtomicBool, Ordering};
use std::test::Fail;
use std::thread::Threads;
use std::{thread, time};
use xfs_base::{Clock, Counts, Currency, Service, StdClock, UnitTable};
use xfs_board::{Served, serve_connections};
use xfs_disk::Disk;
use xfs_machine::Machine;
use xfs_mech::{Mechanism, TakerWatch};
use xfs_server::{Doors, Gate};
use xfs_serving::{CardWatch, Ending as Over, KeyWatch};
use xfs_simulated::units;
use xfs_sockets::{Origins, Ports, TcpDoors};
use xfs_withdraw::Ending;

const CLIENTS: usize = 8;

// How often a client tries beside the others, and how often it does alone then.
const TRIES_AT_ONCE: u32 = 4;

const TRIES_ALONE: u32 = 16;

// So many connections the server takes: one for each try of each client, and one to put back what lies on
// the transport behind it.
const CONNECTIONS: u32 = 320;

// The system chooses the ports.
const ANY: Ports = Ports {
    publisher: 0,
    card: 0,
    keys: 0,
    cash: 0,
};

/// Whether a client got its notes, or how a withdrawal ended that nobody came between.
type Visit = Result<bool, Ending>;

/// Whether all connections were served, what each client came to, how often one tried, and the account of
/// the machine.
#[derive(Drop)]
struct Report {
    is_served: bool,
    visits: Vec<Visit>,
    tries: u64,
    account: Account,
}

/// Doors at ports that the system chooses.
pub fn opened<
    'a,
    R: Net<Listener = TcpListener, Stream = TcpStream> + RandomSource + Sync,
    C: Clock + Sync,
>(rt: &'a R, alloc: Global, clock: &'a C) -> Option<TcpDoors<'a, R, C>> {
    TcpDoors::open(rt, alloc, clock, ANY, Origins::none()).ok()
}

/// Doors that dial the server.
pub fn outward<
    'a,
    R: Net<Listener = TcpListener, Stream = TcpStream> + RandomSource + Sync,
    C: Clock + Sync,
>(shared: &Shared<'a, R, C>) -> Option<TcpDoors<'a, R, C>> {
    TcpDoors::outward(shared.rt, shared.alloc, shared.clock, shared.ports).ok()
}

// Serves the clients at ports that the system chooses.
fn served<
    R: Net<Listener = TcpListener, Stream = TcpStream>
        + RandomSource
        + time::Clock
        + Threads
        + Wait
        + Sync,
>(rt: &R, alloc: Global, units: &UnitTable) -> Result<Report, Fail> {
    let clock = StdClock::new(rt);
    let doors = opened(rt, alloc, &clock).ok_or("the ports")?;
    let ports = doors.ports();
    served_by(rt, alloc, &clock, doors, ports, units)
}

fn served_by<
    R: Net<Listener = TcpListener, Stream = TcpStream> + RandomSource + Threads + Wait + Sync,
    O: Doors + Drop,
    C: Clock + Sync,
>(
    rt: &R,
    alloc: Global,
    clock: &C,
    doors: O,
    ports: Ports,
    units: &UnitTable,
) -> Result<Report, Fail> {
    let shared = Shared::new(rt, alloc, clock, ports, CONNECTIONS).ok_or("the currency")?;
    let machine = machine(alloc)?;
    reported(&shared, units, machine, doors)
}

fn reported<
    R: Net<Listener = TcpListener, Stream = TcpStream> + RandomSource + Threads + Wait + Sync,
    M: Mechanism + Send,
    D: Disk + Send,
    O: Doors + Drop,
    C: Clock + Sync,
>(
    shared: &Shared<R, C>,
    units: &UnitTable,
    machine: Machine<M, D>,
    doors: O,
) -> Result<Report, Fail> {
    let gate = Steps::new(CLIENTS as u64, shared.clock);
    let (visits, served) = side_by_side(shared, machine, doors, &gate);
    let tries = shared.tries.load(Ordering::SeqCst);
    report_of(shared.alloc, units, visits, tries, served)
}

fn report_of<M: Mechanism, D: Disk>(
    alloc: Global,
    units: &UnitTable,
    visits: Result<Vec<Visit>, AllocError>,
    tries: u64,
    served: Served<M, D>,
) -> Result<Report, Fail> {
    let Served { ending, machine } = served;
    let account = account_of(alloc, units, machine)?;
    Ok(Report {
        is_served: ending == Over::Served,
        visits: visits?,
        tries,
        account,
    })
}

// The clients on their side, the server on its.
fn side_by_side<
    R: Net<Listener = TcpListener, Stream = TcpStream> + RandomSource + Threads + Wait + Sync,
    M: Mechanism + Send,
    D: Disk + Send,
    O: Doors + Drop,
    C: Clock + Sync,
    G: Gate + Sync,
>(
    shared: &Shared<R, C>,
    machine: Machine<M, D>,
    doors: O,
    gate: &G,
) -> (Result<Vec<Visit>, AllocError>, Served<M, D>) {
    thread::join(
        shared.rt,
        || visits_and_more(shared),
        || serve(shared, machine, doors, gate),
    )
}

// What the clients came to; then the server is let end.
fn visits_and_more<
    R: Net<Listener = TcpListener, Stream = TcpStream> + RandomSource + Threads + Wait + Sync,
    C: Clock + Sync,
>(shared: &Shared<R, C>) -> Result<Vec<Visit>, AllocError> {
    let visits = visits(shared);
    fill_up(shared);
    visits
}

/// Serves so many connections, and tells when that is over.
pub fn serve<
    R: Threads + Wait + Sync,
    M: Mechanism + Send,
    D: Disk + Send,
    O: Doors + Drop,
    C: Clock + Sync,
    G: Gate + Sync,
>(shared: &Shared<R, C>, machine: Machine<M, D>, mut doors: O, gate: &G) -> Served<M, D> {
    let served = serve_connections(
        shared.rt,
        shared.alloc,
        shared.connections,
        machine,
        &mut doors,
        shared.clock,
        gate,
        CardWatch(TakerWatch),
        KeyWatch(TakerWatch),
    );
    shared.is_over.store(true, Ordering::SeqCst);
    served
}

// The clients come at once. Those that were too late each time come once more, one after the other.
fn visits<
    R: Net<Listener = TcpListener, Stream = TcpStream> + RandomSource + Threads + Wait + Sync,
    C: Clock + Sync,
>(shared: &Shared<R, C>) -> Result<Vec<Visit>, AllocError> {
    let mut visits = thread::map_indices(
        shared.rt,
        shared.alloc,
        CLIENTS,
        &|_| visit(shared, TRIES_AT_ONCE),
    )?;
    for came_to in &mut visits {
        if *came_to == Ok(false) {
            *came_to = visit(shared, TRIES_ALONE);
        }
    }
    Ok(visits)
}

fn visit<
    R: Net<Listener = TcpListener, Stream = TcpStream> + RandomSource + Wait + Sync,
    C: Clock + Sync,
>(shared: &Shared<R, C>, most: u32) -> Visit {
    match outward(shared) {
        Some(mut doors) => shared.withdraw(&mut doors, most),
        None => Err(Ending::Failed),
    }
}

/// Dials and hangs up until the server has taken all its connections.
pub fn fill_up<
    R: Net<Listener = TcpListener, Stream = TcpStream> + RandomSource + Sync,
    C: Clock + Sync,
>(shared: &Shared<R, C>) {
    if let Some(mut doors) = outward(shared) {
        dial_until(&mut doors, shared.connections, &shared.is_over);
    }
}

// Dials and hangs up so often, or until it is over.
fn dial_until<O: Doors>(doors: &mut O, often: u32, is_over: &AtomicBool) {
    for _ in 0..often {
        if is_over.load(Ordering::SeqCst) {
            return;
        }
        let _link = doors.dial(Service::Publisher);
    }
}

// Whether each client got its notes.
fn all_got_theirs(visits: &[Visit]) -> bool {
    visits.iter().all(|came_to| *came_to == Ok(true))
}

// Whether one withdrawal of each client was put out, and no other notes, as the journal tells.
fn is_told(account: &Account, units: &UnitTable) -> bool {
    account.is_orderly
        && account.presented.len() == CLIENTS
        && is_each_worth_70_euros(&account.presented, units)
        && account.adds_up(&[100, 100, 100, 100, 0, 0, 0, 0])
}

fn is_each_worth_70_euros(presented: &[Counts], units: &UnitTable) -> bool {
    match Currency::new(b"EUR") {
        Some(euro) => presented
            .iter()
            .all(|counts| counts.value(units, euro) == 70_000),
        None => false,
    }
}

#[test]
fn every_note_of_eight_withdrawals_at_once_is_told(rt: HostRuntime) -> Result<(), Fail> {
    let alloc = rt.alloc();
    let units = units().ok_or("the units")?;
    let report = served(&rt, alloc, &units)?;
    assert!(rt; report.is_served);
    assert!(rt; all_got_theirs(&report.visits));
    // By the gate all but one lost their first try.
    assert!(rt; report.tries >= 15);
    assert!(rt; is_told(&report.account, &units));
    Ok(())
}
