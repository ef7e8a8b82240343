//! What an audit finds in what no line can hand in. What it finds in lines is shown by cases (xfs_scripts, `audit.cases`).

use std::test::Fail;
use xfs_audit::{Rule, Verdict, audit};
use xfs_base::{Counts, Currency, NoteKind, Places, UnitTable};
use xfs_mech::Motion;

const NOWHERE: Places = Places {
    units: Counts([0; 8]),
    transport: Counts([0; 8]),
    outlet: Counts([0; 8]),
    taken: Counts([0; 8]),
    retracted: Counts([0; 8]),
    rejected: Counts([0; 8]),
};

#[test]
fn notes_loaded_into_no_unit_break_the_places(rt: HostRuntime) -> Result<(), Fail> {
    let kind = NoteKind {
        currency: Currency::new(b"EUR").ok_or("letters")?,
        value: 10,
    };
    let units = UnitTable::new(&[kind]).ok_or("a table")?;
    let loaded = [Motion::Loaded { unit: 9, count: 1 }];
    let found = audit(
        rt.alloc(),
        &[0x11; 32],
        &units,
        &[],
        &loaded,
        &NOWHERE,
        &NOWHERE,
    );
    assert!(rt; found == Ok(Verdict::Broken(Rule::Places)));
    Ok(())
}
