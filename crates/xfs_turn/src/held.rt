ghost use Rattle.std.specs.Prelude.{◌≡◌};
ghost use Rattle.std.specs.Borrow.{sem};
ghost use Rattle.xfs_turn.specs.Lending.{LendsValue};

use crate::chronicle::Chronicle;
use crate::rule::{Cell, Knowledge};
use std::marker::Model;

/// The value, while a seat has the turn. Contracts see the lock, the list that was found, and the
/// value as it is. It can't be dropped: it ends by `leave`, so that no turn is kept for ever.
pub struct Held<T: Chronicle> {
    pub(crate) value: T,
    pub(crate) seat: atomic_table::Seat<Cell<T>, Knowledge<T::Entry>>,
}

impl<T: Chronicle> Model for Held<T> {
    ghost use Rattle.std.specs.Prelude.{◌≡◌, [], ◌∷◌};
    ghost use Rattle.xfs_turn.specs.Seats.{Holding};
    ghost use Rattle.xfs_turn.specs.Turns.{holder};
    ghost use Rattle.xfs_turn.specs.declared.rule.Cell.TheVariants.{Out};

    ghost Value = { Holding T T.Entry };

    ghost view = { λ h. record { lock = h.seat.table_id; found = h.seat.me.0.base; value = h.value } };

    ghost invariant = { λ h. h.seat.me ≡ (holder h.seat.me.0.base h.seat.me.0.base, (0, Out) ∷ []) };
}

impl<T: Chronicle> Held<T> {
    /// The value for reading and writing.
    pub fn value(&mut self) -> &mut T
        ensures* writes_back { sem 𝓛 (LendsValue T.row T.Entry.row T.Chronicle self.entry result) }
        ensures now { result.now ≡ self.old.value }
    {
        &mut self.value
    }
}
