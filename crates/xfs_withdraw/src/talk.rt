ghost use Rattle.std.specs.Prelude.{[]};
ghost use Rattle.xfs_client.specs.Desks.{Recalls};
ghost use Rattle.xfs_server.specs.Links.{IsFresh};
ghost use Rattle.xfs_withdraw.specs.Talks.{EndsOrGoesOn, IsUnderWay, HasTaken, Withdraws};

use crate::Ending;
use std::sync::Wait;
use xfs_base::{Bytes, Clock};
use xfs_client::{Move, Withdrawal};
use xfs_server::{Link, Taking};

/// How often a withdrawal finds its link quiet, at most.
pub const MOST_QUIETS: u32 = 100_000;

/// Has the withdrawal over the link until it ends: its asks are sent, and it hears each text that the
/// link hands over.
pub fn talk<R: Wait, L: Link, C: Clock>(
    rt: &R,
    withdrawal: &mut Withdrawal,
    link: &mut L,
    clock: &C,
) -> Ending
    requires desk { Recalls withdrawal.old.desk [] }
    requires link { IsFresh (L.log link.old) }
    ensures { Withdraws withdrawal.old.terms result (L.log link.new) }
{
    if let Err(ending) = begin(withdrawal, link) {
        return ending;
    }
    go_on(rt, withdrawal, link, clock)
}

// Sends the first ask.
fn begin<L: Link>(withdrawal: &mut Withdrawal, link: &mut L) -> Result<(), Ending>
    requires desk { Recalls withdrawal.old.desk [] }
    requires link { IsFresh (L.log link.old) }
    ensures { EndsOrGoesOn withdrawal.old withdrawal.new 0 result (L.log link.new) }
{
    let ask = withdrawal.start()?;
    link.give(&ask)?;
    Ok(())
}

// Takes one turn after another until the withdrawal ends.
fn go_on<R: Wait, L: Link, C: Clock>(
    rt: &R,
    withdrawal: &mut Withdrawal,
    link: &mut L,
    clock: &C,
) -> Ending
    requires { IsUnderWay withdrawal.old 0 (L.log link.old) }
    ensures { Withdraws withdrawal.old.terms result (L.log link.new) }
{
    let mut quiets = 0;
    for _ in rt.forever() {
        if let Err(ending) = turn(withdrawal, &mut quiets, link, clock) {
            return ending;
        }
    }
    unreachable!()
}

// Takes a text, if one has come, and hears it; else a short time passes.
fn turn<L: Link, C: Clock>(
    withdrawal: &mut Withdrawal,
    quiets: &mut u32,
    link: &mut L,
    clock: &C,
) -> Result<(), Ending>
    requires { IsUnderWay withdrawal.old quiets.old (L.log link.old) }
    ensures { EndsOrGoesOn withdrawal.old withdrawal.new quiets.new result (L.log link.new) }
{
    match link.take() {
        Taking::Text(text) => hear(withdrawal, *quiets, link, &text),
        Taking::Quiet => {
            *quiets += 1;
            if *quiets == MOST_QUIETS {
                return Err(Ending::Quiet);
            }
            clock.pause();
            Ok(())
        }
        Taking::Closed => Err(Ending::Closed),
        Taking::Failed => Err(Ending::Failed),
        Taking::Memory => Err(Ending::Memory),
    }
}

// Hears the text that was taken last, and sends the ask that follows it, if one does.
fn hear<L: Link>(
    withdrawal: &mut Withdrawal,
    quiets: u32,
    link: &mut L,
    text: &Bytes,
) -> Result<(), Ending>
    requires { HasTaken withdrawal.old quiets text.now (L.log link.old) }
    ensures { EndsOrGoesOn withdrawal.old withdrawal.new quiets result (L.log link.new) }
{
    match withdrawal.next(text.list())? {
        Move::Ask(ask) => {
            link.give(ask.list())?;
            Ok(())
        }
        Move::Wait => Ok(()),
        Move::Done => Err(Ending::Done),
        Move::Ended(code) => Err(Ending::Ended(code)),
        Move::Refused(status) => Err(Ending::Refused(status)),
    }
}
