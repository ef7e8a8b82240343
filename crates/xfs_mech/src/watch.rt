ghost use Rattle.std.specs.Prelude.{◌≡◌, ℕ, List, ◌≤◌, None};
ghost use Rattle.std.specs.declared.option.Option.{Option};
ghost use Rattle.xfs_base.specs.Causes.{Rose};
ghost use Rattle.xfs_mech.specs.declared.touch.News.TheVariants as News;
ghost use Rattle.xfs_mech.specs.declared.touch.Touch.{Touch};
ghost use Rattle.xfs_mech.specs.declared.touch.Touch.TheVariants as Touch;
ghost use Rattle.xfs_mech.specs.Watches.{Hands};

use crate::{News, Touch};

/// What watches a card slot, a key pad or an outlet.
pub trait Watch: Drop {
    /// The touches to come, where the object tells them.
    ghost coming: { Self → Option (List Touch) };

    /// How often it failed. The count never falls.
    ghost faults: { Self → ℕ };

    /// The next news. It hands over the first touch that is to come; quiet comes only where none is.
    fn next(&mut self) -> News
        ensures handed { Hands (coming self.old) result (coming self.new) }
        ensures later { faults self.old ≤ faults self.new }
        ensures cause { result ≡ News.Failed → Rose (faults self.old) (faults self.new) };
}

/// What watches the outlet: at every call it tells that notes were taken. The mechanism's own
/// report says how many, which may be none.
#[derive(Clone, Copy, Debug, PartialEq, Eq)]
pub struct TakerWatch;

impl Watch for TakerWatch {
    ghost coming = { λ w. None };

    ghost faults = { λ w. 0 };

    fn next(&mut self) -> News
        ensures { result ≡ News.Touch Touch.NotesTaken }
    {
        News::Touch(Touch::NotesTaken)
    }
}
