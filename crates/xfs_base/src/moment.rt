ghost use Rattle.std.specs.Prelude.{◌≡◌, ◌≤◌, min};
ghost use Rattle.xfs_base.specs.declared.moment.Moment.{Moment};
ghost use Rattle.xfs_base.specs.declared.moment.TheConstants.{LAST_MOMENT};

/// The number of a client's connection. The numbers of one boot are 1, 2, 3 and so on.
#[derive(Clone, Copy, Debug, PartialEq, Eq, PartialOrd, Ord)]
pub struct ClientId(pub u32);

/// A moment in milliseconds. What takes one has the condition that it is at most
/// 9,223,372,036,854,775,807.
#[derive(Clone, Copy, Debug, PartialEq, Eq, PartialOrd, Ord)]
pub struct Moment(pub u64);

/// The greatest moment.
pub const LAST_MOMENT: u64 = 9_223_372_036_854_775_807;

/// The services of the machine, as XFS4IoT (CEN CWA) divides them: the publisher, the card
/// reader, the keyboard, and the cash dispenser with its storage.
#[derive(Clone, Copy, Debug, PartialEq, Eq, PartialOrd, Ord)]
pub enum Service {
    Publisher,
    Card,
    Keys,
    Cash,
}

/// A clock. Nothing is promised of the order of the moments.
pub trait Clock {
    /// Which moments it may tell.
    ghost tells: { Self → Moment → Type 0 };

    /// The moment, in milliseconds.
    fn now(&self) -> Moment
        ensures bound { result.0 ≤ LAST_MOMENT }
        ensures told { tells self.now result };

    /// Lets a short time pass.
    fn pause(&self);
}

/// A clock that stands at a number, or at the greatest moment where the number is larger.
#[derive(Clone, Copy, Debug, PartialEq, Eq)]
pub struct FixedClock(pub u64);

impl Clock for FixedClock {
    ghost tells = { λ c moment. moment.0 ≡ min c.0 LAST_MOMENT };

    fn now(&self) -> Moment
        ensures bound { result.0 ≤ LAST_MOMENT }
        ensures told { result.0 ≡ min self.now.0 LAST_MOMENT }
    {
        Moment(self.0.min(LAST_MOMENT))
    }

    fn pause(&self) {}
}
