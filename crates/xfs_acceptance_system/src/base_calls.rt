use std::process::Abort;
use std::test::Fail;
use xfs_base::{
    Bytes, Clock, Counts, Currency, Failed, FixedClock, MemSink, MemSource, Moment, NoteKind,
    Numbers, Sink, Source, StdClock, StdSink, StdSource, UnitTable, WriteFault, write_all,
};

fn currency(rt: &impl Abort, letters: &[u8]) -> Currency {
    Currency::new(letters).expect(rt, "three letters")
}

// EUR 10, EUR 20, EUR 50 and USD 20.
fn bench(rt: &impl Abort) -> UnitTable {
    let (eur, usd) = (currency(rt, b"EUR"), currency(rt, b"USD"));
    let kinds = [(eur, 10), (eur, 20), (eur, 50), (usd, 20)];
    let kinds = kinds.map(|(currency, value)| NoteKind { currency, value });
    UnitTable::new(&kinds).expect(rt, "a table")
}

#[test]
fn notes_are_counted_and_worth_thousandths(rt: HostRuntime) {
    let units = bench(&rt);
    let counts = Counts([1, 2, 3, 4, 0, 0, 0, 0]);
    assert!(rt; counts.notes() == 10);
    for (letters, worth) in [(b"EUR", 200_000), (b"USD", 80_000), (b"GBP", 0)] {
        assert!(rt; counts.value(&units, currency(&rt, letters)) == worth);
    }
    assert!(rt; units.copied().len() == 4);
    assert!(rt; units.kind(0).is_none() && units.kind(5).is_none());
    assert!(rt; units.kind(3).map(|k| k.value) == Some(50));
}

#[test]
fn a_currency_has_three_capital_letters(rt: HostRuntime) {
    for letters in [b"EU".as_slice(), b"EURO", b"EUr", b"E R", b""] {
        assert!(rt; Currency::new(letters).is_none());
    }
    assert!(rt; currency(&rt, b"XAU").letters() == *b"XAU");
}

#[test]
fn a_table_has_one_to_eight_units_of_values_to_a_million(rt: HostRuntime) {
    let kind = |value| NoteKind {
        currency: currency(&rt, b"EUR"),
        value,
    };
    assert!(rt; UnitTable::new(&[]).is_none());
    assert!(rt; UnitTable::new(&[kind(5); 9]).is_none());
    for (value, is_good) in [(0, false), (1, true), (1_000_000, true), (1_000_001, false)] {
        assert!(rt;
            UnitTable::new(&[kind(value)]).is_some() == is_good,
            "value {value}"
        );
    }
}

#[test]
fn a_fixed_clock_stands_within_the_greatest_moment(rt: HostRuntime) {
    for (number, moment) in [(7, 7), (u64::MAX, 9_223_372_036_854_775_807)] {
        let clock = FixedClock(number);
        clock.pause();
        assert!(rt; clock.now() == Moment(moment));
    }
}

#[test]
fn a_source_gives_its_bytes_and_fails_where_it_is_told(rt: HostRuntime) -> Result<(), Fail> {
    let mut source = MemSource::new(vec![in rt.alloc(); 1, 2, 3]?, vec![in rt.alloc(); 2]?);
    let mut into = [0u8; 2];
    assert!(rt; source.read(&mut into) == Ok(2));
    assert!(rt; source.read(&mut into) == Err(Failed));
    assert!(rt; source.read(&mut into) == Ok(1));
    assert!(rt; into == [3, 2]);
    assert!(rt; source.read(&mut into) == Ok(0));
    Ok(())
}

#[test]
fn a_sink_keeps_what_it_takes_and_a_fault_keeps_a_front(rt: HostRuntime) -> Result<(), Fail> {
    let mut sink = MemSink::new(rt.alloc(), vec![in rt.alloc(); 2]?);
    assert!(rt; write_all(&mut sink, b"ab") == Ok(()));
    assert!(rt; write_all(&mut sink, b"cd") == Err(WriteFault));
    assert!(rt; sink.write(b"ef") == Ok(2));
    assert!(rt; sink.bytes() == b"abef".as_slice());
    Ok(())
}

#[test]
fn std_streams_serve_as_source_and_sink(rt: HostRuntime) -> Result<(), Fail> {
    let mut source = StdSource::new(b"xyz".as_slice());
    let mut into = [0u8; 8];
    assert!(rt; source.read(&mut into) == Ok(3));
    let mut sink = StdSink::new(Vec::new(rt.alloc()));
    assert!(rt; write_all(&mut sink, &into[..3]) == Ok(()));
    Ok(())
}

#[test]
fn lists_go_in_and_come_out(rt: HostRuntime) -> Result<(), Fail> {
    let bytes = Bytes::new(vec![in rt.alloc(); 1, 2]?);
    assert!(rt; bytes.list() == [1, 2].as_slice());
    assert!(rt; bytes.into_list().len() == 2);
    let numbers = Numbers::new(vec![in rt.alloc(); 5]?);
    assert!(rt; numbers.list() == [5].as_slice());
    assert!(rt; numbers.into_list().len() == 1);
    Ok(())
}

#[test]
fn the_systems_clock_goes_on(rt: HostRuntime) {
    let clock = StdClock::new(&rt);
    let begun = clock.now();
    for _ in 0..3 {
        clock.pause();
    }
    assert!(rt; clock.now() >= Moment(begun.0 + 3));
}
