ghost use Rattle.std.specs.Prelude.{None};

use crate::tables::halves;
use std::alloc::{AllocError, Global};
use std::test::Fail;
use xfs_base::{Counts, Failed, MemSource, Source};
use xfs_script::{
    FleetLine, Given, GuardLine, LineFault, Lines, ReplayLine, ScriptFault, counts_text,
    read_fleet, read_guard,
};

/// Gives one byte a call.
#[derive(Drop)]
struct Drip<S: Source + Drop> {
    inner: S,
}

impl<S: Source + Drop> Source for Drip<S> {
    ghost left = { λ d. S.left d.inner };

    ghost faults = { λ d. S.faults d.inner };

    fn read(&mut self, into: &mut [u8]) -> Result<usize, Failed> {
        let most = into.len().min(1);
        self.inner.read(&mut into[..most])
    }
}

// Whether a next line came, with a bar behind it. None where it can't be had.
fn push_next<S: Source>(lines: &mut Lines, source: &mut S, all: &mut Vec<u8>) -> Option<bool> {
    match lines.next(source) {
        Ok(Some(line)) => {
            all.extend_from_slice(line.text.list()).ok()?;
            all.push(b'|').ok()?;
            Some(true)
        }
        Ok(None) => Some(false),
        Err(_) => None,
    }
}

// Whether these are the lines, with a bar behind each.
fn are_lines<S: Source>(alloc: Global, source: &mut S, expected: &str) -> bool {
    let mut lines = Lines::new(alloc);
    let mut all = Vec::new(alloc);
    for _ in 0..20 {
        match push_next(&mut lines, source, &mut all) {
            Some(true) => {}
            Some(false) => return all.as_slice() == expected.as_bytes(),
            None => return false,
        }
    }
    false
}

fn source_of(alloc: Global, input: &str) -> Result<MemSource, AllocError> {
    Ok(MemSource::new(input.as_bytes().to_vec(alloc)?, Vec::new(alloc)))
}

// The same in one piece and byte by byte.
fn come_in_pieces(alloc: Global, input: &str, expected: &str) -> Result<bool, AllocError> {
    let mut drip = Drip {
        inner: source_of(alloc, input)?,
    };
    Ok(
        are_lines(alloc, &mut drip, expected)
            && are_lines(alloc, &mut source_of(alloc, input)?, expected),
    )
}

#[test]
fn lines_in_whatever_pieces(rt: HostRuntime) -> Result<(), Fail> {
    let alloc = rt.alloc();
    for (input, expected) in [
        ("", ""),
        ("issue\nmint 1EUR\n", "issue|mint 1EUR|"),
        ("issue\nshow", "issue|show|"),
        ("issue\r\n\r\n\nshow\r", "issue|||show|"),
        ("\n", "|"),
        ("a\r\r\n", "a\r|"),
        ("a\rb\n", "a\rb|"),
    ] {
        assert!(rt; come_in_pieces(alloc, input, expected)?);
    }
    Ok(())
}

/// Gives bytes without end, and a line feed at the end of each piece where it is asked to.
#[derive(Drop)]
struct Endless {
    feeds: bool,
}

impl Source for Endless {
    ghost left = { λ _. None };

    ghost faults = { λ _. 0 };

    fn read(&mut self, into: &mut [u8]) -> Result<usize, Failed> {
        if self.feeds && !into.is_empty() {
            let last = into.len() - 1;
            into[last] = b'\n';
        }
        Ok(into.len())
    }
}

// Whether a line of this number comes next.
fn is_next<S: Source>(lines: &mut Lines, source: &mut S, number: u64) -> bool {
    matches!(lines.next(source), Ok(Some(line)) if line.number == number)
}

fn is_too_much<S: Source>(lines: &mut Lines, source: &mut S) -> bool {
    matches!(lines.next(source), Err(LineFault::Quota))
}

#[test]
fn an_input_that_is_too_long(rt: HostRuntime) {
    let mut lines = Lines::new(rt.alloc());
    let mut source = Endless { feeds: true };
    for number in 1..1_025u64 {
        assert!(rt; is_next(&mut lines, &mut source, number));
    }
    assert!(rt; is_too_much(&mut lines, &mut source));
    assert!(rt; is_too_much(&mut Lines::new(rt.alloc()), &mut Endless { feeds: false }));
}

#[test]
fn a_source_that_fails(rt: HostRuntime) -> Result<(), Fail> {
    let alloc = rt.alloc();
    let mut source = MemSource::new(b"issue\n".to_vec(alloc)?, vec![in alloc; 2]?);
    let mut lines = Lines::new(alloc);
    let first = lines.next(&mut source)?.ok_or("a line")?;
    assert!(rt; first.text.list() == b"issue".as_slice());
    assert!(rt; matches!(lines.next(&mut source), Err(LineFault::Read)));
    Ok(())
}

// Lines of `guard`, and the counts that they ask for.
const ASKED: &str = "dispense @ unit3:1 => unit3:1 on the last token
dispense @@ unit1:12,unit2:0 => unit1:12
dispense ~ unit1:2,unit8:1000000 => unit1:2,unit8:1000000
dispense A=1 unit4:10 => unit4:10
fill unit1 1 => 1 of 1
fill unit1 9901 => 9901 of 1
fill unit5 10 => 10 of 5
fill unit8 10000 => 10000 of 8";

fn counts(alloc: Global, counts: &Counts) -> Result<String, Fail> {
    let bytes = counts_text(alloc, counts)?;
    Ok(String::from_str(alloc, str::from_utf8(&bytes).unwrap_or(""))?)
}

fn asked(alloc: Global, text: &str) -> Result<String, Fail> {
    let line = read_guard(alloc, text.as_bytes())?;
    match &line {
        GuardLine::Dispense {
            token: Given::Last,
            counts: asked,
        } => Ok(format!(in alloc; "{} on the last token", counts(alloc, asked)?)?),
        GuardLine::Dispense { counts: asked, .. } => counts(alloc, asked),
        GuardLine::Fill { unit, count } => Ok(format!(in alloc; "{count} of {unit}")?),
        _ => Err("a line with counts".into()),
    }
}

#[test]
fn counts_are_read_and_written(rt: HostRuntime) -> Result<(), Fail> {
    let alloc = rt.alloc();
    for row in ASKED.lines() {
        let (line, due) = halves(row);
        assert!(rt; asked(alloc, line)?.as_str() == due, "{line}");
    }
    let three = Counts([5, 0, 0, 20, 0, 0, 0, 4_294_967_295]);
    let told = counts(alloc, &three)?;
    assert!(rt; told.as_str() == "unit1:5,unit4:20,unit8:4294967295");
    assert!(rt; counts(alloc, &Counts([0; 8]))?.as_str() == "none");
    Ok(())
}

// Lines of `fleet`, and whose they are.
const OF_FLEET: &str = "a rest => a rests
b rest => b rests
b # one => b skips
# one => skipped
rest => no line
arest => no line
c rest => no line
b  rest => no line";

fn whose(alloc: Global, text: &str) -> &'static str {
    match &read_fleet(alloc, text.as_bytes()) {
        Ok(FleetLine::Skip) => "skipped",
        Ok(FleetLine::A(ReplayLine::Rest)) => "a rests",
        Ok(FleetLine::B(ReplayLine::Rest)) => "b rests",
        Ok(FleetLine::B(ReplayLine::Skip)) => "b skips",
        Ok(_) => "another line",
        Err(ScriptFault::NotALine) => "no line",
        Err(ScriptFault::Memory) => "no memory",
    }
}

#[test]
fn a_line_of_fleet_is_of_the_machine_with_its_letter(rt: HostRuntime) {
    for row in OF_FLEET.lines() {
        let (line, due) = halves(row);
        assert!(rt; whose(rt.alloc(), line) == due, "{line}");
    }
}
