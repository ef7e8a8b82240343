ghost use Rattle.std.specs.Prelude.{◌≡◌, OnOk, IfErr};
ghost use Rattle.xfs_server.specs.Sessions.{Course, Session, Behind, Ends, Heard, Gave};

use crate::{Board, Gate, GateAt, GiveFault, Link, Taking};
use xfs_base::{Bytes, ClientId, Clock};

/// How a session ended.
#[derive(Clone, Copy, Debug, PartialEq, Eq)]
pub enum Over {
    /// The link told that the peer has closed.
    Closed,
    /// The link failed.
    Failed,
    /// Memory ran out.
    Memory,
    /// So many turns were made as a session may have.
    Turns,
}

const MOST_TURNS: u64 = 4_294_967_296;

/// Serves one connection: each turn takes a text, if one has come, and posts it, turns the board once,
/// and gives the frames that it hands over. It doesn't pause, since the link waits where it is quiet; so
/// the clock isn't looked at.
pub fn serve_client<L: Link, B: Board, G: Gate, C: Clock>(
    link: &mut L,
    board: &mut B,
    gate: &G,
    _clock: &C,
    client: ClientId,
) -> Over
    ensures { Session result (L.log link.old) (L.log link.new) (B.log board.old) (B.log board.new) }
{
    for _ in 0..MOST_TURNS {
        match serve_turn(link, board, gate, client) {
            Ok(()) => {}
            Err(over) => return over,
        }
    }
    Over::Turns
}

fn serve_turn<L: Link, B: Board, G: Gate>(
    link: &mut L,
    board: &mut B,
    gate: &G,
    client: ClientId,
) -> Result<(), Over>
    ensures ok { OnOk result (Course 1 Behind (L.log link.old) (L.log link.new) (B.log board.old) (B.log board.new)) }
    ensures err { IfErr result (λ over. Ends 0 over (L.log link.old) (L.log link.new) (B.log board.old) (B.log board.new)) }
{
    hear(link, board, gate, client)?;
    gate.pass(client, GateAt::Work);
    if board.turn().is_err() {
        return Err(Over::Memory);
    }
    match give_all(link, &board.frames()) {
        Ok(()) => {}
        Err(GiveFault::Failed) => return Err(Over::Failed),
        Err(GiveFault::Memory) => return Err(Over::Memory),
    }
    gate.pass(client, GateAt::Frames);
    Ok(())
}

// Takes a text, if one has come, and posts it.
fn hear<L: Link, B: Board, G: Gate>(
    link: &mut L,
    board: &mut B,
    gate: &G,
    client: ClientId,
) -> Result<(), Over>
    ensures ok { OnOk result (Heard (L.log link.old) (L.log link.new) (B.log board.old) (B.log board.new)) }
    ensures err { IfErr result (λ over. Ends 0 over (L.log link.old) (L.log link.new) (B.log board.old) (B.log board.new)) }
{
    let text = match link.take() {
        Taking::Text(text) => text,
        Taking::Quiet => return Ok(()),
        Taking::Closed => return Err(Over::Closed),
        Taking::Failed => return Err(Over::Failed),
        Taking::Memory => return Err(Over::Memory),
    };
    gate.pass(client, GateAt::Post);
    match board.post(text.list()) {
        Ok(()) => Ok(()),
        Err(_) => Err(Over::Memory),
    }
}

// Gives the frames in order, up to the first that is refused.
fn give_all<L: Link>(link: &mut L, frames: &[Bytes]) -> Result<(), GiveFault>
    ensures { Gave frames.now result (L.log link.old) (L.log link.new) }
{
    for frame in frames {
        if let Err(fault) = link.give(frame.list()) {
            return Err(fault);
        }
    }
    Ok(())
}
