//! What the lines of `xfs.bench` set up.

use crate::files::{folder_of, in_folder, makes_folder, removes, removes_folder, writes};
use std::alloc::Global;
use std::test::Fail;
use xfs_mech::{Fault, KeyName, Touch};
use xfs_simulated::Setup;
use xfs_start::{BENCH_FILE, BenchFault, Folder, StartFault, setup_in};

const LINES: &[u8] =
    b"# a bench\r\n\nports 6000\r\ncard in - 3B31 -\ncard taken\ncard fault\nkey one\nkey fault\nfault 3 1 0\nfault 18446744073709551615 4294967295 2\nfailing 5 6\nfailing 9";

// Texts of which each is bad, one behind the other.
const BAD: &str =
    "ports 0|ports 65533|ports 06000|ports|ports 1 2|port 1| ports 1|fault 0 1 1|fault 1 4294967296 0|fault 1 0 4294967296|fault 18446744073709551616 0 0|fault 1 1|fault 1 1 1 1|failing|failing 0|failing 1 x|failing  1|card|card in - -|card in - 3B3 -|key ten|take|join 1 card|mint 1.00EUR|key one\n\nnothing|ports 1\nports 2|fault 1 0 0\nfault 2 0 0\nfault 1 1 1";

fn has_the_cards(setup: &Setup) -> bool {
    let [Touch::CardIn(tracks), Touch::CardTaken, Touch::CardFault] = setup.cards.as_slice() else {
        return false;
    };
    tracks.track(1).is_none() && tracks.track(2) == Some(b";1".as_slice())
}

fn has_the_keys(setup: &Setup) -> bool {
    matches!(
        setup.keys.as_slice(),
        [Touch::Key(KeyName::One), Touch::KeyFault]
    )
}

fn has_the_faults(setup: &Setup) -> bool {
    let first = Fault {
        call: 3,
        moved: 1,
        diverted: 0,
    };
    let second = Fault {
        call: u64::MAX,
        moved: u32::MAX,
        diverted: 2,
    };
    setup.faults.as_slice() == [first, second].as_slice()
        && setup.failing.as_slice() == [5, 6, 9].as_slice()
}

fn is_that_of_the_lines(setup: &Setup) -> bool {
    setup.first_port == Some(6000)
        && has_the_cards(setup)
        && has_the_keys(setup)
        && has_the_faults(setup)
}

// Nothing comes.
fn is_quiet(setup: &Setup) -> bool {
    setup.first_port.is_none() && setup.cards.is_empty() && setup.keys.is_empty()
}

// What comes where no file says it.
fn is_fixed(setup: &Setup) -> bool {
    setup.cards.len() == 200
        && setup.keys.len() == 500
        && setup.first_port.is_none()
        && setup.faults.is_empty()
        && setup.failing.is_empty()
}

fn setup_of(alloc: Global, text: Option<&[u8]>) -> Option<Setup> {
    setup_in(alloc, text).ok()
}

#[test]
fn the_lines_are_the_bench(rt: HostRuntime) -> Result<(), Fail> {
    let setup = setup_of(rt.alloc(), Some(LINES)).ok_or("the lines")?;
    assert!(rt; is_that_of_the_lines(&setup));
    let quiet = setup_of(rt.alloc(), Some(b"")).ok_or("no line")?;
    assert!(rt; is_quiet(&quiet));
    let fixed = setup_of(rt.alloc(), None).ok_or("no text")?;
    assert!(rt; is_fixed(&fixed));
    Ok(())
}

fn is_bad(alloc: Global, text: &str) -> bool {
    matches!(setup_in(alloc, Some(text.as_bytes())), Err(BenchFault::Bad))
}

#[test]
fn a_line_of_no_form_is_refused(rt: HostRuntime) {
    for text in BAD.split('|') {
        assert!(rt; is_bad(rt.alloc(), text), "{text:?}");
    }
}

type OwnFolder<'a> = Folder<'a, HostRuntime>;

fn has_the_lines(folder: &OwnFolder<'_>) -> bool {
    match folder.setup() {
        Ok(setup) => is_that_of_the_lines(&setup),
        Err(_) => false,
    }
}

fn has_the_fixed_bench(folder: &OwnFolder<'_>) -> bool {
    match folder.setup() {
        Ok(setup) => setup.cards.len() == 200,
        Err(_) => false,
    }
}

fn is_refused(folder: &OwnFolder<'_>) -> bool {
    matches!(folder.setup(), Err(StartFault::BadBench))
}

fn is_unread(folder: &OwnFolder<'_>) -> bool {
    matches!(folder.setup(), Err(StartFault::UnreadBench { .. }))
}

#[test]
fn the_bench_is_that_of_its_file(rt: HostRuntime) -> Result<(), Fail> {
    let path = folder_of(&rt, "bench")?;
    let file = in_folder(&rt, &path, BENCH_FILE)?;
    let folder = Folder::new(&rt, &path);
    assert!(rt; has_the_fixed_bench(&folder));
    assert!(rt; writes(&rt, &file, LINES) && has_the_lines(&folder));
    assert!(rt; writes(&rt, &file, b"nothing") && is_refused(&folder));
    assert!(rt; removes(&rt, &file) && makes_folder(&rt, &file) && is_unread(&folder));
    assert!(rt; removes_folder(&rt, &path));
    Ok(())
}
