//! The records that a journal is timed over.
ghost use Rattle.std.specs.Prelude.{IfSome};
ghost use Rattle.xfs_journal.specs.Image.{HasUnit};

use std::alloc::Global;
use xfs_base::{Counts, Kind, Places};
use xfs_journal::{Rec, Survey, Text};

/// One record in so many is a Start, the first one too.
pub(crate) const BOOT_EACH: u64 = 1_000;

const NONE: Counts = Counts([0; 8]);

// As long as a token.
const TOKEN: [u8; 164] = [0x41; 164];

/// What stands between two Starts.
#[derive(Clone, Copy)]
pub(crate) enum Between {
    /// By turns an Issue and a Clear.
    Nonces,
    /// By turns what a withdrawal writes, and a Load.
    Withdrawals,
}

/// The record in front of which so many stand. None where memory ran out.
pub(crate) fn record_at(alloc: Global, place: u64, between: Between) -> Option<Rec>
    ensures { IfSome result HasUnit }
{
    if place % BOOT_EACH == 0 {
        return start(alloc, place);
    }
    match between {
        Between::Nonces => Some(nonce_record(place)),
        Between::Withdrawals => withdrawal_record(alloc, place),
    }
}

fn start(alloc: Global, issues: u64) -> Option<Rec>
    ensures { IfSome result HasUnit }
{
    let places = Places {
        units: Counts([100, 100, 100, 100, 0, 0, 0, 0]),
        transport: NONE,
        outlet: NONE,
        taken: NONE,
        retracted: NONE,
        rejected: NONE,
    };
    let places = Survey::new(alloc, places).ok()?;
    Some(Rec::Start { issues, places })
}

fn nonce_record(place: u64) -> Rec
    ensures { HasUnit result }
{
    if place % 2 == 0 {
        Rec::Issue {
            number: place,
            word: 0x5a5a_5a5a_5a5a_5a5a,
        }
    } else {
        Rec::Clear
    }
}

fn withdrawal_record(alloc: Global, place: u64) -> Option<Rec>
    ensures { IfSome result HasUnit }
{
    let rec = match place % 8 {
        1 => bind(alloc)?,
        2 => order(Kind::Stack),
        4 => order(Kind::Present),
        3 | 5 => Rec::Done {
            moved: Counts([1, 0, 0, 0, 0, 0, 0, 0]),
            diverted: NONE,
        },
        7 => Rec::Load { unit: 1, count: 1 },
        6 => Rec::Clear,
        _ => nonce_record(0),
    };
    Some(rec)
}

fn bind(alloc: Global) -> Option<Rec>
    ensures { IfSome result HasUnit }
{
    let token = Text::new(TOKEN.to_vec(alloc).ok()?)?;
    Some(Rec::Bind { token })
}

fn order(kind: Kind) -> Rec
    ensures { HasUnit result }
{
    Rec::Order {
        kind,
        counts: Counts([1, 0, 0, 0, 0, 0, 0, 0]),
    }
}
