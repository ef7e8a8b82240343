ghost use Rattle.std.specs.Prelude.{IfOk};
ghost use Rattle.xfs_journal.specs.Image.{HasUnit};

use std::alloc::Global;
use std::test::Fail;
use xfs_base::{Counts, Kind, Places};
use xfs_disk::{Disk, MemDisk};
use xfs_journal::{Journal, Rec, Survey};
use xfs_mech::{KeyName, Mechanism, Motion, News, SimMech, SimWatch, Touch, Watch};
use xfs_simulated::{
    LIMITS, OWN, card_news, core_on, empty, key_news, mechanism, places, resume_core, secret_in,
    units,
};

#[test]
fn the_machine_is_made(rt: HostRuntime) -> Result<(), Fail> {
    let alloc = rt.alloc();
    let units = units().ok_or("the units")?;
    assert!(rt; units.len() == 4);
    let mech = mechanism(alloc, &units, Vec::new(alloc)).ok_or("the mechanism")?;
    let core = core_on(mech, units, empty(alloc), LIMITS);
    assert!(rt; core.limits.records == 1_000_000);
    assert!(rt; core.limits.bytes == 17_179_869_184);
    assert!(rt; places() == full());
    Ok(())
}

#[test]
fn secrets_are_64_digits_and_at_most_a_line_feed(rt: HostRuntime) {
    let digits = "000102030405060708090A0B0C0D0E0F101112131415161718191a1b1c1d1e1f";
    let mut bytes = [0u8; 32];
    for place in 0..32u8 {
        bytes[usize::from(place)] = place;
    }
    for end in ["", "\n"] {
        let text = format!(in rt.alloc(); "{digits}{end}").expect(&rt, "memory");
        assert!(rt; secret_in(text.as_bytes()) == Some(bytes), "{end:?}");
    }
    for end in ["0", "00", "\n\n", "\r\n", " ", "\u{0}"] {
        let text = format!(in rt.alloc(); "{digits}{end}").expect(&rt, "memory");
        assert!(rt; secret_in(text.as_bytes()) == None, "{end:?}");
    }
    for front in ["", "0", "\n", "0x", "-", "g"] {
        let rest = digits
            .as_bytes()
            .get(front.len() + 1..)
            .expect(&rt, "digits");
        let rest = std::str::from_utf8(rest).expect(&rt, "digits");
        let text = format!(in rt.alloc(); "{front}{rest}").expect(&rt, "memory");
        assert!(rt; secret_in(text.as_bytes()) == None, "{front:?}");
    }
}

#[test]
fn cards_come_and_are_taken(rt: HostRuntime) -> Result<(), Fail> {
    let mut watch = SimWatch::new(card_news(rt.alloc())?, Vec::new(rt.alloc()));
    for _ in 0..100 {
        let News::Touch(Touch::CardIn(tracks)) = watch.next() else {
            return Err("a card".into());
        };
        assert!(rt; tracks.track(2) == Some(b";1234".as_slice()));
        assert!(rt; tracks.track(1).is_none() && tracks.track(3).is_none());
        assert!(rt; matches!(watch.next(), News::Touch(Touch::CardTaken)));
    }
    assert!(rt; matches!(watch.next(), News::Quiet));
    Ok(())
}

#[test]
fn entries_end_with_enter(rt: HostRuntime) -> Result<(), Fail> {
    let mut watch = SimWatch::new(key_news(rt.alloc())?, Vec::new(rt.alloc()));
    for _ in 0..100 {
        for key in [
            KeyName::One,
            KeyName::Two,
            KeyName::Three,
            KeyName::Four,
            KeyName::Enter,
        ] {
            let News::Touch(Touch::Key(pressed)) = watch.next() else {
                return Err("a key".into());
            };
            assert!(rt; pressed == key);
        }
    }
    assert!(rt; matches!(watch.next(), News::Quiet));
    Ok(())
}

// So many notes of EUR 20, the second unit.
fn twenties(count: u32) -> Counts {
    Counts([0, count, 0, 0, 0, 0, 0, 0])
}

// A Boot with so many notes of EUR 20 in their unit, and none elsewhere.
fn boot(alloc: Global, count: u32) -> Result<Rec, Fail>
    ensures { IfOk result HasUnit }
{
    let places = Places {
        units: twenties(count),
        ..places_of_none()
    };
    Ok(Rec::Boot {
        places: Survey::new(alloc, places)?,
    })
}

fn places_of_none() -> Places {
    let none = Counts([0; 8]);
    Places {
        units: none,
        transport: none,
        outlet: none,
        taken: none,
        retracted: none,
        rejected: none,
    }
}

// 100 notes in each of the four units.
fn full() -> Places {
    Places {
        units: Counts([100, 100, 100, 100, 0, 0, 0, 0]),
        ..places_of_none()
    }
}

// A disk with a journal: so many notes of EUR 20 at its Boot, of which some were stacked and presented.
fn paid(alloc: Global, count: u32, moved: u32) -> Result<Journal<MemDisk>, Fail> {
    let Ok(mut journal) = Journal::mount(alloc, empty(alloc), LIMITS) else {
        return Err("a journal".into());
    };
    pay(alloc, &mut journal, count, moved)?;
    Ok(journal)
}

fn pay<D: Disk>(
    alloc: Global,
    journal: &mut Journal<D>,
    count: u32,
    moved: u32,
) -> Result<(), Fail> {
    for count in [1, count] {
        append(journal, boot(alloc, count)?)?;
    }
    for kind in [Kind::Stack, Kind::Present] {
        append_done(journal, kind, twenties(moved))?;
    }
    Ok(())
}

// An order of these notes, and that it was carried out.
fn append_done<D: Disk>(journal: &mut Journal<D>, kind: Kind, counts: Counts) -> Result<(), Fail> {
    append(journal, Rec::Order { kind, counts })?;
    let done = Rec::Done {
        moved: counts,
        diverted: twenties(0),
    };
    append(journal, done)
}

fn append<D: Disk>(journal: &mut Journal<D>, rec: Rec) -> Result<(), Fail>
    requires { HasUnit rec }
{
    journal.append(rec)?;
    Ok(())
}

#[test]
fn the_machine_goes_on_where_its_journal_leaves_it(rt: HostRuntime) -> Result<(), Fail> {
    let alloc = rt.alloc();
    let mut journal = paid(alloc, 9, 2)?;
    order_more(&mut journal)?;
    let core = resume_core(alloc, journal.end(), OWN, Vec::new(alloc))?;
    assert!(rt; has_gone_on(&core.mech));
    assert!(rt; core.life == 600_000);
    Ok(())
}

// Five notes more, and an order that was cut off.
fn order_more<D: Disk>(journal: &mut Journal<D>) -> Result<(), Fail> {
    append(journal, Rec::Load { unit: 2, count: 5 })?;
    let order = Rec::Order {
        kind: Kind::Stack,
        counts: twenties(3),
    };
    append(journal, order)
}

// Whether the notes lie where the journal leaves them, and its orders are told. The first Boot stands in front of the
// records that are kept.
fn has_gone_on(mech: &SimMech) -> bool {
    let left = Places {
        units: twenties(12),
        taken: twenties(2),
        ..places_of_none()
    };
    let [first, second, _, _] = mech.motions() else {
        return false;
    };
    mech.survey() == left && number_of(first) == Some(3) && number_of(second) == Some(5)
}

fn number_of(motion: &Motion) -> Option<u64> {
    match motion {
        Motion::Moved { number, .. } => Some(*number),
        _ => None,
    }
}

#[test]
fn places_that_no_machine_has_are_not_taken(rt: HostRuntime) -> Result<(), Fail> {
    let alloc = rt.alloc();
    for (count, moved) in [(10_001, 0), (1, 2), (4_000_000_001, 4_000_000_001)] {
        let journal = paid(alloc, count, moved)?;
        let core = resume_core(alloc, journal.end(), OWN, Vec::new(alloc))?;
        assert!(rt; core.mech.survey() == full(), "{count}");
    }
    Ok(())
}

#[test]
fn a_disk_without_a_journal_has_a_full_machine(rt: HostRuntime) -> Result<(), Fail> {
    let alloc = rt.alloc();
    for bytes in [b"".as_slice(), &[0xff; 9], &[0xff; 10]] {
        let disk = MemDisk::new(alloc, Vec::from_slice(alloc, bytes)?);
        let core = resume_core(alloc, disk, OWN, Vec::new(alloc))?;
        assert!(rt; core.mech.survey() == full());
        assert!(rt; core.mech.motions().is_empty());
        assert!(rt; bytes.len() < 10 || core.disk.bytes() == bytes);
    }
    Ok(())
}
