ghost use Rattle.std.specs.Prelude.{◌≡◌};

use xfs_base::{Bytes, Memory};
use xfs_server::{Bell, Board, Work2};

/// What stands behind a connection, and the bell of its device's worker, which rings with each post: what was posted may want
/// news of the device.
#[derive(Drop)]
pub(crate) struct Ringing<'s, B: Drop> {
    pub board: B,
    bell: Option<&'s Bell>,
}

impl<'s, B: Board + Drop> Ringing<'s, B> {
    pub fn new(board: B, bell: Option<&'s Bell>) -> Ringing<'s, B>
        ensures { result.board ≡ board }
    {
        Ringing { board, bell }
    }

    /// What stands behind the connection.
    pub fn into_board(self) -> B
        ensures { result ≡ self.entry.board }
    {
        let Ringing { board, bell: _ } = self;
        board
    }
}

impl<'s, B: Board + Drop> Board for Ringing<'s, B> {
    ghost use Rattle.std.specs.Prelude.{◌≡◌};
    ghost use Rattle.xfs_server.specs.Boards.{after_fetch, after_post, after_turn};

    ghost log = { λ r. B.log r.board };

    fn post(&mut self, text: &[u8]) -> Result<(), Memory>
        ensures { B.log self.new.board ≡ after_post (B.log self.old.board) text.now result }
    {
        let posted = self.board.post(text);
        if let Some(bell) = self.bell {
            bell.ring();
        }
        posted
    }

    fn turn(&mut self) -> Result<Work2, Memory>
        ensures { B.log self.new.board ≡ after_turn (B.log self.old.board) }
    {
        self.board.turn()
    }

    fn frames(&mut self) -> Vec<Bytes>
        ensures { B.log self.new.board ≡ after_fetch (B.log self.old.board) result.items }
    {
        self.board.frames()
    }
}
