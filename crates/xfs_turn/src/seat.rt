ghost use Rattle.std.specs.Prelude.{◌≡◌, length};

use crate::chronicle::Chronicle;
use crate::rule::{Cell, Knowledge};
use std::marker::Model;

/// A place at a lock, from which one thread at a time may take the turn. Contracts see its lock and
/// the list that it has seen: what stood in the list when the seat last had the turn, or what the
/// seats that were joined into it had seen.
#[derive(Drop)]
pub struct Seat<T: Chronicle> {
    pub(crate) seat: atomic_table::Seat<Cell<T>, Knowledge<T::Entry>>,
    pub(crate) count: u64,
}

impl<T: Chronicle> Model for Seat<T> {
    ghost use Rattle.std.specs.Prelude.{◌≡◌, [], length};
    ghost use Rattle.xfs_turn.specs.Seats.{Seated};
    ghost use Rattle.xfs_turn.specs.Turns.{knows};

    ghost Value = { Seated T.Entry };

    ghost view = { λ s. record { lock = s.seat.table_id; seen = s.seat.me.0.seen } };

    ghost invariant = { λ s. (s.seat.me ≡ (knows s.seat.me.0.seen, [])) × (s.count ≡ length s.seat.me.0.seen) };
}

impl<T: Chronicle> Seat<T> {
    /// How many entries it has seen.
    pub fn seen(&self) -> u64
        ensures { result ≡ length self.now.seen }
    {
        self.count
    }
}
