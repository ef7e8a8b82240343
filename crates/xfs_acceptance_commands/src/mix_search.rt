use std::process::Abort;
use xfs_base::{Counts, Currency, NoteKind, UnitTable};
use xfs_mix::{MixFault, least};

fn currency(rt: &impl Abort, letters: &[u8]) -> Currency {
    Currency::new(letters).expect(rt, "three letters")
}

// Three values of EUR, and a note of 1 of another currency.
fn table(rt: &impl Abort, values: [u32; 3]) -> UnitTable {
    let (eur, usd) = (currency(rt, b"EUR"), currency(rt, b"USD"));
    let [a, b, c] = values;
    let kinds = [(usd, 1), (eur, a), (eur, b), (eur, c)];
    let kinds = kinds.map(|(currency, value)| NoteKind { currency, value });
    UnitTable::new(&kinds).expect(rt, "a table")
}

fn notes_of(counts: [u32; 3]) -> u32 {
    let [a, b, c] = counts;
    a.wrapping_add(b).wrapping_add(c)
}

fn worth_of(values: [u32; 3], counts: [u32; 3]) -> u32 {
    let ([a, b, c], [i, j, k]) = (values, counts);
    notes_of([a.wrapping_mul(i), b.wrapping_mul(j), c.wrapping_mul(k)])
}

fn are_there(have: [u32; 3], counts: [u32; 3]) -> bool {
    let ([a, b, c], [i, j, k]) = (have, counts);
    i <= a && j <= b && k <= c
}

fn fewer(least: Option<u32>, notes: u32) -> u32 {
    match least {
        Some(least) => least.min(notes),
        None => notes,
    }
}

// The least number of notes among all counts from 0 to 7, for what has no more of a unit.
fn search(values: [u32; 3], have: [u32; 3], amount: u32) -> Option<u32> {
    let mut least = None;
    for n in 0..512u32 {
        let counts = [n % 8, n / 8 % 8, n / 64];
        if are_there(have, counts) && worth_of(values, counts) == amount {
            least = Some(fewer(least, notes_of(counts)));
        }
    }
    least
}

#[test]
fn as_few_notes_as_a_plain_search_finds(rt: HostRuntime) {
    let eur = currency(&rt, b"EUR");
    for i in 0..30u32 {
        let scale = 1 + i % 3;
        let values = [1 + i % 5, 2 + i % 7, 4 + i % 11].map(|value| value.wrapping_mul(scale));
        let have = [i % 8, i / 2 % 8, 7 - i % 6];
        let units = table(&rt, values);
        let [a, b, c] = have;
        let there = Counts([7, a, b, c, 0, 0, 0, 0]);
        for amount in 1..=80 {
            let mix = least(rt.alloc(), &units, &there, eur, amount);
            let notes = search(values, have, amount).map(u64::from);
            let notes = notes.ok_or(MixFault::Nothing);
            assert!(rt; mix.map(|mix| mix.notes()) == notes, "{amount} of {i}");
        }
    }
}
