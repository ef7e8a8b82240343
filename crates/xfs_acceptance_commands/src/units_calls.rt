use crate::tables::halves;
use std::alloc::Global;
use std::test::Fail;
use xfs_base::{Counts, Currency, NoteKind, Places, UnitTable};
use xfs_json::parse;
use xfs_mech::{Kind, Mechanism, Order, Outcome, SimMech, lies_in, places_fit};
use xfs_units::{Book, read_added, storage};

// 100 notes each of EUR 10 and USD 20, and one more on the transport.
#[test]
fn storage_tells_the_notes_in_the_units(rt: HostRuntime) -> Result<(), Fail> {
    let currency = Currency::new(b"EUR").ok_or("letters")?;
    let dollar = Currency::new(b"USD").ok_or("letters")?;
    let kinds = [
        NoteKind {
            currency,
            value: 10,
        },
        NoteKind {
            currency: dollar,
            value: 20,
        },
    ];
    let units = UnitTable::new(&kinds).ok_or("table")?;
    let none = Counts([0; 8]);
    let places = Places {
        units: Counts([100, 100, 0, 0, 0, 0, 0, 0]),
        transport: Counts([1, 0, 0, 0, 0, 0, 0, 0]),
        outlet: none,
        taken: none,
        retracted: none,
        rejected: none,
    };
    let written = storage(rt.alloc(), &units, &places)?.to_vec(rt.alloc())?;
    let told =
        "{\"storage\":{\"unit1\":{\"count\":100,\"currency\":\"EUR\",\"value\":10},\"unit2\":{\"count\":100,\"currency\":\"USD\",\"value\":20}}}";
    assert!(rt; written.as_slice() == told.as_bytes());
    Ok(())
}

const ADDED: &str = "{} => Err(Shape)
{\"storage\":{}} => Err(Shape)
{\"storage\":{\"unit1\":null}} => Err(Shape)
{\"storage\":{\"unit1\":{\"added\":0}}} => Err(Shape)
{\"storage\":{\"unit1\":{\"added\":10001}}} => Err(Shape)
{\"storage\":{\"unit1\":{\"added\":1.0}}} => Err(Shape)
{\"storage\":{\"unit9\":{\"added\":1}}} => Err(Unit)
{\"storage\":{\"unit9\":{\"added\":1},\"unit1\":{}}} => Err(Shape)
{\"storage\":{\"unit8\":{\"added\":10000},\"unit1\":{\"added\":1}}} => Ok(Counts([1, 0, 0, 0, 0, 0, 0, 10000]))";

// Whether what a payload adds is read as the row says.
fn is_added(alloc: Global, row: &str) -> Option<bool> {
    let (payload, due) = halves(row);
    let value = parse(alloc, payload.as_bytes()).ok()?;
    let told = format!(in alloc; "{:?}", read_added(&value)).ok()?;
    Some(told.as_str() == due)
}

#[test]
fn what_is_added_has_its_shape_and_its_names(rt: HostRuntime) {
    for row in ADDED.lines() {
        assert!(rt; is_added(rt.alloc(), row) == Some(true), "{row}");
    }
}

// The book has the mechanism's places after a stack, a taking and a load.
#[test]
fn a_book_follows_the_mechanism(rt: HostRuntime) -> Result<(), Fail> {
    let euro = Currency::new(b"EUR").ok_or("letters")?;
    let kind = NoteKind {
        currency: euro,
        value: 20,
    };
    let units = UnitTable::new(&[kind]).ok_or("table")?;
    let two = Counts([2, 0, 0, 0, 0, 0, 0, 0]);
    let begun = Places {
        units: two,
        transport: two,
        outlet: two,
        taken: two,
        retracted: two,
        rejected: two,
    };
    assert!(rt; places_fit(&units, &begun) && lies_in(&two, &begun.units));
    let mut mech = SimMech::new(rt.alloc(), units.copied(), begun, Vec::new(rt.alloc()));
    let mut book = Book::new(units, begun);
    mech.ready()?;
    book.apply(Kind::Stack, &mech.execute(Order::new(1, Kind::Stack, two)));
    assert!(rt; book.places() == mech.survey());
    Ok(())
}

#[test]
fn a_book_takes_and_loads(rt: HostRuntime) -> Result<(), Fail> {
    let euro = Currency::new(b"EUR").ok_or("letters")?;
    let kind = NoteKind {
        currency: euro,
        value: 20,
    };
    let units = UnitTable::new(&[kind]).ok_or("table")?;
    let two = Counts([2, 0, 0, 0, 0, 0, 0, 0]);
    let begun = Places {
        units: two,
        transport: two,
        outlet: two,
        taken: two,
        retracted: two,
        rejected: two,
    };
    assert!(rt; places_fit(&units, &begun) && lies_in(&two, &begun.outlet));
    let mut book = Book::new(units, begun);
    book.take(&Outcome {
        moved: two,
        diverted: two,
        failed: false,
    });
    assert!(rt; book.room(1, 9_998) && !book.room(1, 9_999));
    book.load(1, 9_998);
    let places = book.places();
    assert!(rt; (places.outlet.0[0], places.taken.0[0], places.units.0[0]) == (0, 4, 10_000));
    Ok(())
}
