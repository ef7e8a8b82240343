ghost use Rattle.xfs_serving.specs.Sessions.{ServesAndLeaves};

use crate::backend::Backend;
use crate::ringing::Ringing;
use std::alloc::Global;
use std::sync::Arc;
use std::sync::atomic::{AtomicBool, Ordering};
use std::thread::JoinHandle;
use xfs_base::{ClientId, Clock};
use xfs_server::{Gate, Link, serve_client};

/// A session in a thread of its own, which raises its flag as it ends.
#[derive(Drop)]
pub(crate) struct Running<T: Drop> {
    pub handle: JoinHandle<T>,
    pub ended: Arc<AtomicBool, Global>,
}

/// Serves one connection to its end. It leaves before its link is let go.
pub(crate) fn session<H: Backend, L: Link, C: Clock, G: Gate>(
    mut link: L,
    mut board: Ringing<'_, H::Board>,
    clock: &C,
    gate: &G,
    client: ClientId,
    ended: Arc<AtomicBool, Global>,
) -> H::Left
    ensures { ServesAndLeaves H.Board.log H.leaves (L.log link) board.entry.board result }
{
    let _over = serve_client(&mut link, &mut board, gate, clock, client);
    let left = H::leave(board.into_board());
    drop(link);
    ended.store(true, Ordering::SeqCst);
    left
}
