ghost use Rattle.std.specs.Prelude.{◌≡◌};
ghost use Rattle.xfs_mech.specs.Mechanism.{source_of};

use std::alloc::Global;
use std::process::Abort;
use std::test::Fail;
use xfs_base::{Counts, Currency, NoteKind, Places, UnitTable};
use xfs_mech::{
    Fault, KeyName, Kind, Mechanism, Motion, News, Order, Outcome, SilentMech, SimMech, SimWatch,
    Touch, Watch, can_load, lies_in, places_fit,
};

const NONE: Counts = Counts([0; 8]);

const FULL: Counts = Counts([100, 100, 100, 100, 0, 0, 0, 0]);

// EUR 10, EUR 20, EUR 50 and USD 20.
fn units() -> Result<UnitTable, Fail> {
    let euro = Currency::new(b"EUR").ok_or("letters")?;
    let dollar = Currency::new(b"USD").ok_or("letters")?;
    let kinds = [(euro, 10), (euro, 20), (euro, 50), (dollar, 20)];
    let kinds = kinds.map(|(currency, value)| NoteKind { currency, value });
    Ok(UnitTable::new(&kinds).ok_or("table")?)
}

fn places(units: Counts) -> Places {
    Places {
        units,
        transport: NONE,
        outlet: NONE,
        taken: NONE,
        retracted: NONE,
        rejected: NONE,
    }
}

fn source(kind: Kind, places: &Places) -> Counts
    ensures { result ≡ source_of kind places.now }
{
    match kind {
        Kind::Stack => places.units,
        Kind::Present | Kind::Reject => places.transport,
        Kind::Retract => places.outlet,
    }
}

// Carries out an order on any mechanism.
fn carry<M: Mechanism>(rt: &impl Abort, mech: &mut M, kind: Kind, counts: Counts) -> Outcome {
    let ready = mech.ready();
    assert!(rt; ready.is_ok());
    assert!(rt; lies_in(&counts, &source(kind, &mech.survey())));
    mech.execute(Order::new(1, kind, counts))
}

// What an order does over 100 notes in each unit, where the mechanism has this fault.
fn carried(
    rt: &impl Abort,
    alloc: Global,
    fault: Fault,
    kind: Kind,
    counts: Counts,
) -> Result<Outcome, Fail> {
    let (units, begun) = (units()?, places(FULL));
    assert!(rt; places_fit(&units, &begun));
    let mut mech = SimMech::new(alloc, units, begun, vec![in alloc; fault]?);
    Ok(carry(rt, &mut mech, kind, counts))
}

// The notes of lower units go first, and the one that is diverted is the next.
#[test]
fn a_fault_leaves_part_of_an_order_of_two_units(rt: HostRuntime) -> Result<(), Fail> {
    let few = |first, second| Counts([first, second, 0, 0, 0, 0, 0, 0]);
    let fault = Fault {
        call: 1,
        moved: 3,
        diverted: 1,
    };
    let last = carried(&rt, rt.alloc(), fault, Kind::Stack, few(2, 2))?;
    assert!(rt; last.failed && last.moved == few(2, 1) && last.diverted == few(0, 1));
    Ok(())
}

// A load that fails adds no entry; a taking that doesn't fail takes the whole outlet.
#[test]
fn reports_add_an_entry_only_where_they_succeed(rt: HostRuntime) -> Result<(), Fail> {
    let (units, mut begun) = (units()?, places(FULL));
    begun.outlet = FULL;
    assert!(rt; places_fit(&units, &begun) && can_load(&units, &begun, 1, 9_900));
    let fault = Fault {
        call: 1,
        moved: 9,
        diverted: 9,
    };
    let mut mech = SimMech::new(rt.alloc(), units, begun, vec![in rt.alloc(); fault]?);
    mech.ready()?;
    let failed = mech.load(1, 9_900);
    assert!(rt; (failed.moved, failed.failed, mech.motions().len()) == (NONE, true, 0));
    let loaded = mech.load(1, 9_900);
    assert!(rt; (loaded.moved.0[0], mech.survey().units.0[0]) == (9_900, 10_000));
    mech.ready()?;
    assert!(rt; mech.taken().moved == FULL);
    assert!(rt; mech.motions().last().copied() == Some(Motion::Taken { counts: FULL }));
    Ok(())
}

// Nothing but the notes bounds a list, and each entry takes the room for one.
#[test]
fn a_list_grows_entry_by_entry(rt: HostRuntime) -> Result<(), Fail> {
    let (units, begun) = (units()?, places(FULL));
    assert!(rt; places_fit(&units, &begun));
    let mut mech = SimMech::new(rt.alloc(), units, begun, Vec::new(rt.alloc()));
    for _ in 0..100 {
        carry(
            &rt,
            &mut mech,
            Kind::Stack,
            Counts([1, 0, 0, 0, 0, 0, 0, 0]),
        );
    }
    assert!(rt; mech.motions().len() == 100);
    assert!(rt; mech.survey().units.0[0] == 0);
    Ok(())
}

#[test]
fn a_silent_mechanism_goes_on_with_a_list(rt: HostRuntime) -> Result<(), Fail> {
    let (units, begun) = (units()?, places(FULL));
    assert!(rt; places_fit(&units, &begun));
    let motions = vec![in rt.alloc();
        Motion::Loaded {
            unit: 2,
            count: 100
        },
    ]?;
    let mut mech = SilentMech::new(SimMech::resume(units, begun, motions, Vec::new(rt.alloc())));
    assert!(rt; carry(&rt, &mut mech, Kind::Stack, FULL).moved == FULL);
    assert!(rt; carry(&rt, &mut mech, Kind::Reject, FULL).moved == FULL);
    assert!(rt; (mech.survey().units, mech.survey().rejected) == (NONE, FULL));
    Ok(())
}

#[test]
fn limits_of_places_and_of_a_load(rt: HostRuntime) -> Result<(), Fail> {
    let units = units()?;
    for (first, fifth, taken, fits) in [
        (10_000, 0, 3_999_990_000, true),
        (10_001, 0, 0, false),
        (10_000, 0, 3_999_990_001, false),
        (0, 1, 0, false),
    ] {
        let mut all = places(Counts([first, 0, 0, 0, fifth, 0, 0, 0]));
        all.taken = Counts([taken, 0, 0, 0, 0, 0, 0, 0]);
        assert!(rt; places_fit(&units, &all) == fits);
    }
    for (unit, count, can) in [
        (1, 9_900, true),
        (1, 9_901, false),
        (5, 1, false),
        (0, 1, false),
    ] {
        assert!(rt; can_load(&units, &places(FULL), unit, count) == can);
    }
    Ok(())
}

#[test]
fn a_watch_keeps_a_touch_over_a_failing_call(rt: HostRuntime) -> Result<(), Fail> {
    let touches = vec![in rt.alloc(); Touch::CardTaken, Touch::Key(KeyName::Zero)]?;
    let mut watch = SimWatch::new(touches, vec![in rt.alloc(); 2]?);
    assert!(rt; matches!(watch.next(), News::Touch(Touch::CardTaken)));
    assert!(rt; matches!(watch.next(), News::Failed));
    assert!(rt; matches!(watch.next(), News::Touch(Touch::Key(KeyName::Zero))));
    assert!(rt; matches!(watch.next(), News::Quiet));
    Ok(())
}
