//! How the file `xfs.bench` is read.

ghost use Rattle.std.specs.Prelude.{◌≡◌, ◌∷◌, [], ◌++◌, Err, IfOk, OnOk, map};
ghost use Rattle.std.specs.List.{AllZip, slice_split};
ghost use Rattle.std.specs.Option.{option_map};
ghost use Rattle.xfs_mech.specs.Faults.{fault_at};
ghost use Rattle.xfs_script.specs.Lines.{is_line_feed, without_return};
ghost use Rattle.xfs_simulated.specs.Setups.{setup_of};
ghost use Rattle.xfs_start.specs.BenchFile.{HasNoLine, IsBad, IsSetUp, lines, setup_by, with_line};
ghost use Rattle.xfs_start.specs.BenchLines.{IsBenchLine};
ghost use Rattle.xfs_start.specs.declared.bench_line.BenchFault.TheVariants as BenchFault;
ghost use Rattle.xfs_start.specs.declared.bench_line.BenchLine.TheVariants.{Ports, Fault as NewFault};

use crate::bench_line::{BenchFault, BenchLine, read_line};
use std::alloc::{AllocError, Global};
use xfs_mech::Fault;
use xfs_simulated::Setup;

/// What a text of lines sets up; the fixed bench where there is none.
pub fn setup_in(alloc: Global, text: Option<&[u8]>) -> Result<Setup, BenchFault>
    ensures ok { IfOk result (λ setup. IsSetUp (option_map (λ text. text.now) text.entry) (setup_of setup)) }
    ensures bad { result ≡ Err BenchFault.Bad → IsBad (option_map (λ text. text.now) text.entry) }
{
    let Some(text) = text else {
        return match Setup::fixed(alloc) {
            Ok(setup) => Ok(setup),
            Err(_) => Err(BenchFault::Memory),
        };
    };
    let lines = read_lines(alloc, text)?;
    match set_up(alloc, lines)? {
        Some(setup) => Ok(setup),
        None => Err(BenchFault::Bad),
    }
}

fn read_lines(alloc: Global, text: &[u8]) -> Result<Vec<BenchLine>, BenchFault>
    ensures ok { IfOk result (λ read. AllZip IsBenchLine (lines text.now) read.items) }
    ensures bad { result ≡ Err BenchFault.Bad → HasNoLine (lines text.now) }
{
    let list = pieces(alloc, text)?;
    read_each(alloc, &list)
}

fn read_each(alloc: Global, pieces: &[&[u8]]) -> Result<Vec<BenchLine>, BenchFault>
    ensures ok { IfOk result (λ read. AllZip IsBenchLine (map (λ piece. without_return piece.now) pieces.now) read.items) }
    ensures bad { result ≡ Err BenchFault.Bad → HasNoLine (map (λ piece. without_return piece.now) pieces.now) }
{
    let mut read = Vec::new(alloc);
    for piece in pieces {
        let line = read_line(alloc, without_return(piece))?;
        add(&mut read, line)?;
    }
    Ok(read)
}

fn add(read: &mut Vec<BenchLine>, line: BenchLine) -> Result<(), AllocError>
    ensures { OnOk result (read.new.items ≡ read.old.items ++ line ∷ []) }
{
    read.push(line)?;
    Ok(())
}

// What stands between the line feeds of a text.
fn pieces(alloc: Global, text: &[u8]) -> Result<Vec<&[u8]>, AllocError>
    ensures { IfOk result (λ list. map (λ piece. piece.now) list.items ≡ slice_split is_line_feed text.now) }
{
    text.split(|byte| *byte == b'\n').collect(alloc)
}

fn without_return(piece: &[u8]) -> &[u8]
    ensures { result.now ≡ without_return piece.now }
{
    match piece {
        [line @ .., b'\r'] => line,
        _ => piece,
    }
}

// What the lines set up, where they say nothing twice.
fn set_up(alloc: Global, lines: Vec<BenchLine>) -> Result<Option<Setup>, AllocError>
    ensures { IfOk result (λ set. option_map setup_of set ≡ setup_by lines.items) }
{
    let mut setup = Setup::quiet(alloc);
    for line in lines {
        match with_line(setup, line)? {
            Some(more) => setup = more,
            None => return Ok(None),
        }
    }
    Ok(Some(setup))
}

fn with_line(setup: Setup, line: BenchLine) -> Result<Option<Setup>, AllocError>
    ensures { IfOk result (λ more. option_map setup_of more ≡ with_line (setup_of setup) line) }
{
    let mut setup = setup;
    match line {
        BenchLine::Skip => {}
        BenchLine::Ports(first) => return Ok(with_ports(setup, first)),
        BenchLine::Card(touch) => setup.cards.push(touch)?,
        BenchLine::Key(touch) => setup.keys.push(touch)?,
        BenchLine::Fault(fault) => return with_fault(setup, fault),
        BenchLine::Failing(calls) => setup.failing.extend_from_slice(&calls)?,
    }
    Ok(Some(setup))
}

fn with_ports(setup: Setup, first: u16) -> Option<Setup>
    ensures { option_map setup_of result ≡ with_line (setup_of setup) (Ports first) }
{
    let mut setup = setup;
    if setup.first_port.is_some() {
        return None;
    }
    setup.first_port = Some(first);
    Some(setup)
}

fn with_fault(setup: Setup, fault: Fault) -> Result<Option<Setup>, AllocError>
    ensures { IfOk result (λ more. option_map setup_of more ≡ with_line (setup_of setup) (NewFault fault)) }
{
    let mut setup = setup;
    if fault_of(&setup.faults, fault.call).is_some() {
        return Ok(None);
    }
    setup.faults.push(fault)?;
    Ok(Some(setup))
}

// The fault that names this call.
fn fault_of(faults: &[Fault], call: u64) -> Option<Fault>
    ensures { result ≡ fault_at faults.now call }
{
    faults.iter().copied().find(|fault| fault.call == call)
}
