ghost use Rattle.std.specs.Prelude.{◌≡◌, ◌∷◌, [], None, MatchOption, List, reverse, true, if◌then◌else◌};

use std::marker::Model;
use xfs_base::Bytes;

/// The frames that a client is handed, in order. None of its calls takes memory.
#[derive(Drop)]
pub struct Frames {
    list: Vec<Bytes>,
    // The last stands first, once one was handed over.
    is_turned: bool,
}

impl Model for Frames {
    ghost use Rattle.std.specs.Prelude.{ℕ, List, reverse, if◌then◌else◌};

    ghost Value = { List (List ℕ) };

    ghost view = { λ f. if f.is_turned then reverse f.list.items else f.list.items };
}

impl Frames {
    pub fn new(list: Vec<Bytes>) -> Frames
        ensures { result ≡ list.items }
    {
        Frames {
            list,
            is_turned: false,
        }
    }

    /// Hands over the first. None exactly where none is left.
    pub fn next(&mut self) -> Option<Bytes>
        ensures { MatchOption result ((self.old ≡ []) × (self.new ≡ [])) (λ frame. self.old ≡ frame ∷ self.new) }
    {
        turn_round(&mut self.list, &mut self.is_turned);
        self.list.pop()
    }

    /// Hands over all that are left.
    pub fn into_list(self) -> Vec<Bytes>
        ensures { result.items ≡ self }
    {
        let Frames {
            mut list,
            is_turned,
        } = self;
        if is_turned {
            list.reverse();
        }
        list
    }
}

// The last stands first from now on.
fn turn_round(list: &mut Vec<Bytes>, is_turned: &mut bool)
    ensures turned { is_turned.new ≡ true }
    ensures same { reverse list.new.items ≡ (if is_turned.old then reverse list.old.items else list.old.items) }
{
    if !*is_turned {
        list.reverse();
        *is_turned = true;
    }
}
