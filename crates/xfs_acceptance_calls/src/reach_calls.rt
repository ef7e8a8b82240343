//! A withdrawal over a file, which tells nothing, by a mechanism that comes with an entry of its own.

ghost use Rattle.std.specs.Prelude.{◌≡◌, IfOk};
ghost use Rattle.xfs_guard.specs.declared.open.Open.TheVariants.{No};
ghost use Rattle.xfs_mech.specs.Sim.{units_of};

use crate::files::opened;
use crate::guard_bench::units;
use crate::teller::Teller;
use std::alloc::Global;
use std::fs::{self, File};
use std::process::Abort;
use std::test::Fail;
use xfs_acceptance_journal::short_files::start_file;
use xfs_base::{Counts, Kind, UnitTable};
use xfs_disk::{Disk, FileDisk};
use xfs_guard::Guard;
use xfs_mech::{Motion, SimMech, places_fit};
use xfs_simulated::{KEY, LIMITS, SEED, places};

const NONE: Counts = Counts([0; 8]);

const FIFTY: Counts = Counts([0, 0, 1, 0, 0, 0, 0, 0]);

// An entry of an order of this number and kind.
fn moved(number: u64, kind: Kind, notes: Counts) -> Motion {
    Motion::Moved {
        number,
        kind,
        moved: notes,
        diverted: NONE,
    }
}

// A mechanism with 100 notes in each unit, which comes with an order's entry of this number.
fn coming_with(alloc: Global, units: &UnitTable, number: u64) -> Result<SimMech, Fail>
    ensures units { IfOk result (λ mech. units_of mech ≡ units.now) }
{
    let begun = places();
    if !places_fit(units, &begun) {
        return Err("the notes don't fit".into());
    }
    let entries = vec![in alloc; moved(number, Kind::Reject, NONE)]?;
    Ok(SimMech::resume(units.copied(), begun, entries, Vec::new(alloc)))
}

// A note of EUR 50 is paid out, behind the second of two Starts.
const PAID: &str = "base => 1
records => 1
issue => done
token NONCE=E56A5D4028BD86530000000000000001,TOKENFORMAT=1,TOKENLENGTH=0164,DISPENSE1=50.00EUR,HMACSHA256=3D5C9E3C4712EA6A5C3803CA4CB0E54958CB4C8778ACBBB26FEA1F6935956AC2 => done
dispense 3 1 => moved unit3:1
present => moved unit3:1
base => 1
records => 7";

// A guard over a file, by a mechanism that comes with an entry of this number.
fn booted(alloc: Global, file: File, number: u64) -> Result<Guard<SimMech, FileDisk>, Fail>
    ensures { IfOk result (λ g. g.state.open_order ≡ No) }
{
    let units = units()?;
    let mech = coming_with(alloc, &units, number)?;
    match Guard::boot(alloc, mech, FileDisk::new(file), KEY, SEED, units, LIMITS) {
        Ok(guard) => Ok(guard),
        Err(fail) => Err(fail.why.into()),
    }
}

// The entries of the mechanism of a guard that ended with a note of EUR 50 in the outlet, and none on the transport.
fn entries_of<D: Disk>(alloc: Global, guard: Guard<SimMech, D>) -> Result<Vec<Motion>, Fail> {
    let found = guard.places();
    let (mech, disk) = guard.end();
    drop(disk);
    if found.outlet != FIFTY || found.transport != NONE {
        return Err("the notes lie elsewhere".into());
    }
    Ok(Vec::from_slice(alloc, mech.motions())?)
}

// A start, and then another with this mechanism, which pays out.
fn paid_out(rt: &impl Abort, alloc: Global, file: File, number: u64) -> Result<Vec<Motion>, Fail> {
    let mut teller = Teller::new(alloc, booted(alloc, file, number)?);
    teller.plays(rt, PAID)?;
    entries_of(alloc, teller.into_guard())
}

// The file has a Start, and gets another as record 2. An entry of number 1 stands in front of that, and of what comes
// behind it the clauses speak; one of number 9 is in reach of it, and nothing is claimed. The answers are the same.
#[test]
fn a_withdrawal_over_a_file_with_an_entry_in_reach_or_not(rt: HostRuntime) -> Result<(), Fail> {
    for number in [1, 9] {
        let started = start_file(rt.alloc())?;
        fs::write(&rt, "xfs_acceptance_reach.test", started.as_slice())?;
        let file = opened(&rt, "xfs_acceptance_reach.test")?;
        let entries = paid_out(&rt, rt.alloc(), file, number)?;
        let due = [
            moved(number, Kind::Reject, NONE),
            moved(5, Kind::Stack, FIFTY),
            moved(7, Kind::Present, FIFTY),
        ];
        assert!(rt;
            entries.as_slice() == due.as_slice(),
            "with the entry {number}"
        );
    }
    fs::remove_file(&rt, "xfs_acceptance_reach.test")?;
    Ok(())
}
