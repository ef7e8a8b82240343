use std::test::Fail;
use xfs_base::{Counts, Currency, NoteKind, UnitTable};
use xfs_mix::{CountFault, MixFault, check, least};

// EUR 10, EUR 20, EUR 50 and USD 20.
fn bench() -> Result<UnitTable, Fail> {
    let euro = Currency::new(b"EUR").ok_or("letters")?;
    let dollar = Currency::new(b"USD").ok_or("letters")?;
    let kinds = [(euro, 10), (euro, 20), (euro, 50), (dollar, 20)];
    let kinds = kinds.map(|(currency, value)| NoteKind { currency, value });
    Ok(UnitTable::new(&kinds).ok_or("a table")?)
}

fn euros(value: u32) -> Result<NoteKind, Fail> {
    let currency = Currency::new(b"EUR").ok_or("letters")?;
    Ok(NoteKind { currency, value })
}

// More notes than a unit of a machine has.
#[test]
fn too_many_notes_are_no_mix(rt: HostRuntime) -> Result<(), Fail> {
    let one = euros(1)?;
    let ones = UnitTable::new(&[one; 8]).ok_or("a table")?;
    for (first, fault) in [(1_000_000, MixFault::TooMany), (999_999, MixFault::Nothing)] {
        let have = Counts([first, 0, 0, 0, 0, 0, 0, 0]);
        let mix = least(rt.alloc(), &ones, &have, one.currency, 1_000_000);
        assert!(rt; mix == Err(fault), "{first}");
    }
    Ok(())
}

#[test]
fn another_currency_has_no_mix(rt: HostRuntime) -> Result<(), Fail> {
    let pound = Currency::new(b"GBP").ok_or("letters")?;
    let have = Counts([100, 100, 100, 100, 0, 0, 0, 0]);
    assert!(rt; least(rt.alloc(), &bench()?, &have, pound, 10) == Err(MixFault::Nothing));
    Ok(())
}

// What comes of two of 25 or of one of 40 and one of 10.
#[test]
fn the_fewest_notes(rt: HostRuntime) -> Result<(), Fail> {
    let currency = euros(1)?.currency;
    let kinds = [40, 25, 10, 5, 1].map(|value| NoteKind { currency, value });
    let units = UnitTable::new(&kinds).ok_or("a table")?;
    let have = Counts([9, 9, 9, 9, 9, 0, 0, 0]);
    let mix = least(rt.alloc(), &units, &have, currency, 50);
    assert!(rt; mix.map(|mix| mix.notes()) == Ok(2));
    Ok(())
}

#[test]
fn a_unit_that_is_short_is_named(rt: HostRuntime) -> Result<(), Fail> {
    let units = bench()?;
    let have = Counts([3, 70, 0, 5, 9, 0, 0, 0]);
    for (first, unit) in [(3, 3), (4, 1)] {
        let told = check(&units, &have, &Counts([first, 5, 1, 6, 0, 0, 0, 0]));
        assert!(rt; told == Err(CountFault::Short { unit }));
    }
    Ok(())
}
