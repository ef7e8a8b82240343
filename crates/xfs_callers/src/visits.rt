//! A caller of xfs_turn.

ghost use Rattle.std.specs.Prelude.{◌≡◌, ◌++◌, ◌∷◌, [], ℕ, List, true};
ghost use mathlib.Core.List.{IsPrefix};

use std::sync::Wait;
use xfs_turn::{Chronicle, Seat, Turn};

/// Who came, the first first.
#[derive(Drop)]
pub struct Visits {
    pub names: Vec<u64>,
}

impl Chronicle for Visits {
    type Entry = u64;

    ghost list = { λ visits. visits.names.items };

    fn count(&self) -> u64 {
        self.names.len() as u64
    }
}

/// A thread writes itself into the list in its turn, and answers whether there was memory for it. What its seat had seen
/// still begins what it has seen then.
pub fn visit<R: Wait>(
    rt: &R,
    turn: &Turn<Visits>,
    seat: Seat<Visits>,
    name: u64,
) -> (Seat<Visits>, bool)
    requires lock { seat.lock ≡ turn.now }
    ensures lock { result.0.lock ≡ seat.lock }
    ensures seen { IsPrefix seat.seen result.0.seen }
    ensures written { result.1 ≡ true → (front : List ℕ) × (result.0.seen ≡ front ++ name ∷ []) }
{
    let mut held = turn.enter(rt, seat);
    let written = held.value().names.push(name).is_ok();
    (turn.leave(held), written)
}
