//! The program `xfs`: it has the files of the key, of the seed and of the bench read, makes the bench, calls `run`, and
//! ends with its status. Only `serve` listens on ports and keeps its journal in a file; `client` dials.
#![tactic(auto)]

ghost use Rattle.xfs_guard.specs.Starts.{Starts};

mod outside;

use crate::outside::{
    read_words, tell_error, tell_fault, tell_listening, tell_open_files, tell_unreached,
    tell_version,
};
use std::io;
use std::process::ExitCode;
use std::sync::Wait;
use std::thread::Threads;
use xfs_base::{Clock, StdClock, StdSink, StdSource};
use xfs_cli::run;
use xfs_disk::{Disk, FileDisk};
use xfs_guard::Bench;
use xfs_mech::{Mechanism, SimWatch};
use xfs_server::{Doors, OpenGate};
use xfs_simulated::{
    LIMITS, Secrets, Setup, core_failing, empty, mechanism, quiet_bench, second_core, units,
};
use xfs_sockets::{OpenFault, Origins, Ports, TcpDoors};
use xfs_start::{Folder, StartFault, server_bench};
use xfs_words::{Command, name_command};

fn main(rt: HostRuntime) -> ExitCode {
    let status = match start(&rt, &rt) {
        Ok(status) => status,
        Err(fault) => tell_fault(&rt, fault),
    };
    ExitCode::from(status)
}

// Threads and waiting are had from `rt`; files, sockets and streams from `host`.
fn start<R: Threads + Wait + Sync>(rt: &R, host: &HostRuntime) -> Result<u8, StartFault> {
    let folder = Folder::new(host, ".");
    let secrets = folder.secrets()?;
    let setup = folder.setup()?;
    let words = read_words(host)?;
    match name_command(&words) {
        Some(Command::Serve(connections)) => {
            serve(rt, host, &words, connections, secrets, setup)
        }
        Some(_) => other(rt, host, &words, secrets, setup),
        None => {
            let status = other(rt, host, &words, secrets, setup)?;
            tell_version(host);
            Ok(status)
        }
    }
}

// The ports come before the file, so that a server that runs already keeps its journal to itself.
fn serve<R: Threads + Wait + Sync>(
    rt: &R,
    host: &HostRuntime,
    words: &[String],
    connections: u64,
    secrets: Secrets,
    setup: Setup,
) -> Result<u8, StartFault> {
    let alloc = host.alloc();
    let clock = StdClock::new(host);
    let folder = Folder::new(host, ".");
    let listed = folder.origins()?;
    let ports = ports_of(&setup);
    let mut doors = match TcpDoors::open(host, alloc, &clock, ports, Origins::of(&listed)) {
        Ok(doors) => doors,
        Err(fault) => return Err(start_fault(fault)),
    };
    doors.close_after(connections);
    let disk = FileDisk::new(folder.journal()?);
    let bench = server_bench(alloc, disk, secrets, setup)?;
    tell_listening(host, &doors.ports(), &bench.core.key);
    tell_open_files(host, &folder)?;
    let (status, _) = run_over(rt, host, words, bench, &clock, &mut doors);
    Ok(status)
}

// The four ports of the bench, and the standard's where it names none.
fn ports_of(setup: &Setup) -> Ports {
    setup
        .first_port
        .and_then(Ports::from_first)
        .unwrap_or_else(Ports::usual)
}

fn start_fault(fault: OpenFault) -> StartFault {
    match fault {
        OpenFault::Failed { port, why } => StartFault::CannotListen { port, why },
        OpenFault::Memory => StartFault::Memory,
    }
}

// Every other command: its doors only dial, and its disk is in memory.
fn other<R: Threads + Wait + Sync>(
    rt: &R,
    host: &HostRuntime,
    words: &[String],
    secrets: Secrets,
    setup: Setup,
) -> Result<u8, StartFault> {
    let alloc = host.alloc();
    let clock = StdClock::new(host);
    let mut doors = match TcpDoors::outward(host, alloc, &clock, ports_of(&setup)) {
        Ok(doors) => doors,
        Err(fault) => return Err(start_fault(fault)),
    };
    let units = units().ok_or(StartFault::Memory)?;
    let mech = mechanism(alloc, &units, setup.faults).ok_or(StartFault::Memory)?;
    let core = core_failing(secrets, mech, units, empty(alloc), LIMITS, setup.failing);
    let second = second_core(alloc).ok_or(StartFault::Memory)?;
    let bench = quiet_bench(alloc, core, second);
    let (status, link) = run_over(rt, host, words, bench, &clock, &mut doors);
    if let Some((port, why)) = doors.last_unreached() {
        tell_unreached(host, port, why);
    }
    if let Some(link) = link {
        tell_error(host, link.last_text());
    }
    Ok(status)
}

// Runs the program from standard input to standard output; the status, and the link that was dialled.
fn run_over<
    R: Threads + Wait + Sync,
    M: Mechanism + Send,
    D: Disk + Send,
    C: Clock + Sync,
    O: Doors,
>(
    rt: &R,
    host: &HostRuntime,
    words: &[String],
    bench: Bench<M, D, SimWatch, SimWatch>,
    clock: &C,
    doors: &mut O,
) -> (u8, Option<O::Link>)
    requires starts { Starts M.Mechanism D.Disk bench.core }
    requires second { Starts M.Mechanism D.Disk bench.second }
{
    let mut source = StdSource::new(host.reader());
    let mut sink = StdSink::new(io::writer(host));
    let ended = run(
        rt,
        host.alloc(),
        words,
        &mut source,
        &mut sink,
        bench,
        clock,
        doors,
        &OpenGate,
    );
    (ended.status, ended.link)
}
