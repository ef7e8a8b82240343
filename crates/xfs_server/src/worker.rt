ghost use Rattle.std.specs.Prelude.{OnOk, OnErr, IfErr};
ghost use Rattle.xfs_server.specs.Workers.{CannotSense, HaltsRound, MakesRound, Senses, Tending, view};

use crate::{Backoff, Bell, Tended, Work2};
use std::sync::Wait;
use xfs_base::{Clock, Memory};
use xfs_mech::{News, Watch};

// The longest pause of a worker, in milliseconds. A post ends it.
const LONGEST_PAUSE: u64 = 50;

/// How a worker ended.
#[derive(Clone, Copy, Debug, PartialEq, Eq)]
pub enum Over2 {
    /// Its board was closing.
    Done,
    /// Memory ran out.
    Memory,
}

/// What a round found.
#[derive(Clone, Copy)]
enum Found {
    /// A touch, or something to do.
    Work,
    /// Nothing, though news is wanted.
    NoNews,
    /// Nothing, and no news is wanted.
    Nothing,
}

/// Tends one device: each round asks whether it is to end and whether news is wanted, hands on one news
/// of the watch where it is, and turns the board once. It pauses after a round without a touch in which
/// the board had nothing to do, and longer after many in which no news was wanted either, if the bell
/// doesn't ring.
pub fn tend<R: Wait, B: Tended, W: Watch, C: Clock>(
    rt: &R,
    board: &mut B,
    watch: &mut W,
    clock: &C,
    bell: &Bell,
) -> Over2
    ensures { Tending result (W.coming watch.old) (W.coming watch.new) (W.faults watch.old) (W.faults watch.new) (B.log board.old) (B.log board.new) }
{
    let mut backoff = Backoff::up_to(LONGEST_PAUSE, bell);
    for _ in rt.forever() {
        backoff.begin_look();
        match make_round(board, watch) {
            Ok(Found::Work) => backoff.reset(),
            Ok(Found::NoNews) => {
                backoff.reset();
                clock.pause();
            }
            Ok(Found::Nothing) => backoff.pause(rt, clock),
            Err(over) => return over,
        }
    }
    unreachable!()
}

/// One round of a worker, as `tend` makes it, without its pause. Idle where there was no touch and nothing to do.
pub fn round<B: Tended, W: Watch>(board: &mut B, watch: &mut W) -> Result<Work2, Over2>
    ensures ok { OnOk result (MakesRound (view B.log W.coming W.faults board.old watch.old) (view B.log W.coming W.faults board.new watch.new)) }
    ensures err { IfErr result (HaltsRound (view B.log W.coming W.faults board.old watch.old) (view B.log W.coming W.faults board.new watch.new)) }
{
    match make_round(board, watch) {
        Ok(Found::Work) => Ok(Work2::Did),
        Ok(Found::NoNews | Found::Nothing) => Ok(Work2::Idle),
        Err(over) => Err(over),
    }
}

// One round, and what it found.
fn make_round<B: Tended, W: Watch>(board: &mut B, watch: &mut W) -> Result<Found, Over2>
    ensures ok { OnOk result (MakesRound (view B.log W.coming W.faults board.old watch.old) (view B.log W.coming W.faults board.new watch.new)) }
    ensures err { IfErr result (HaltsRound (view B.log W.coming W.faults board.old watch.old) (view B.log W.coming W.faults board.new watch.new)) }
{
    if board.closing() {
        return Err(Over2::Done);
    }
    let sensed = match sense(board, watch) {
        Ok(sensed) => sensed,
        Err(_) => return Err(Over2::Memory),
    };
    match board.turn() {
        Ok(Work2::Idle) => Ok(sensed),
        Ok(Work2::Did) => Ok(Found::Work),
        Err(_) => Err(Over2::Memory),
    }
}

// Hands on one news of the watch, where news is wanted.
fn sense<B: Tended, W: Watch>(board: &mut B, watch: &mut W) -> Result<Found, Memory>
    ensures ok { OnOk result (Senses (view B.log W.coming W.faults board.old watch.old) (view B.log W.coming W.faults board.new watch.new)) }
    ensures err { OnErr result (CannotSense (view B.log W.coming W.faults board.old watch.old) (view B.log W.coming W.faults board.new watch.new)) }
{
    if !board.wants() {
        return Ok(Found::Nothing);
    }
    match watch.next() {
        News::Touch(touch) => match board.touch(touch) {
            Ok(()) => Ok(Found::Work),
            Err(memory) => Err(memory),
        },
        News::Quiet => Ok(Found::NoNews),
        News::Failed => match board.fault() {
            Ok(()) => Ok(Found::NoNews),
            Err(memory) => Err(memory),
        },
    }
}
