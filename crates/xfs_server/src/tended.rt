ghost use Rattle.std.specs.Prelude.{◌≡◌, ◌≤◌, ℕ};
ghost use Rattle.xfs_base.specs.Causes.{next_count};
ghost use Rattle.xfs_server.specs.Tendeds.{TendedLog, after_closing, after_wants, after_touch, after_work, CountsFault};

use crate::Work2;
use xfs_base::Memory;
use xfs_mech::Touch;

/// What stands behind the worker of one device. The counts stand still at the last value of 64 bits.
pub trait Tended {
    ghost log: { Self → TendedLog };

    /// Whether news of the device is wanted.
    fn wants(&mut self) -> bool
        ensures { log self.new ≡ after_wants (log self.old) result };

    /// Takes a touch of the device.
    fn touch(&mut self, touch: Touch) -> Result<(), Memory>
        ensures { log self.new ≡ after_touch (log self.old) touch result };

    /// Takes that the device's watch failed. It may count as a touch.
    fn fault(&mut self) -> Result<(), Memory>
        ensures { CountsFault (log self.old) (log self.new) };

    /// Does one step of the device's work.
    fn turn(&mut self) -> Result<Work2, Memory>
        ensures { log self.new ≡ after_work (log self.old) };

    /// Whether the worker is to end.
    fn closing(&mut self) -> bool
        ensures { log self.new ≡ after_closing (log self.old) result };
}
