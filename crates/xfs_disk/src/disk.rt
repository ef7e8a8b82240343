//! A disk: bytes that are read and written in place, and what a crash may leave of them.
ghost use Rattle.std.specs.Prelude.{◌≡◌, ◌≤◌, ℕ, List, Some, None, is_some, option_map, length, IfOk, OnOk, OnErr};
ghost use Rattle.std.specs.declared.option.Option.{Option};
ghost use Rattle.std.specs.Io.{ReadsAtMost};
ghost use Rattle.xfs_base.specs.Causes.{HasCause, IfTold};
ghost use Rattle.xfs_disk.specs.Disk.{overlaid, resized, Gives, Torn, Cut, ImagesFollow, AddsNone, Only, Elapses};

use xfs_base::Failed;

/// Bytes that stay, but for a crash. Until a sync succeeds, a crash may leave anything in each written range
/// and past the old end, and any length between the old end and the end of the furthest write or cut.
pub trait Disk: Drop {
    /// The bytes that a read gives, where the object tells them.
    ghost held: { Self → Option (List ℕ) };

    /// The images: what a crash now may leave.
    ghost images: { Self → List ℕ → Type 0 };

    /// The moment, a number that doesn't fall.
    ghost moment: { Self → ℕ };

    /// The images of each moment from that one on, during a call or between two.
    ghost images_since: { Self → ℕ → List ℕ → Type 0 };

    /// How often it failed.
    ghost faults: { Self → ℕ };

    /// The number of bytes.
    fn len(&mut self) -> Result<u64, Failed>
        ensures value { IfOk result (λ n. IfTold (held self.old) (λ all. n ≡ length all)) }
        ensures same { held self.new ≡ held self.old }
        ensures crash { AddsNone (images self.old) (images self.new) }
        ensures time { Elapses (moment self.old) (moment self.new) (images_since self.old) (images_since self.new) (images self.new) }
        ensures cause { HasCause (faults self.old) (faults self.new) result };

    /// Reads bytes from an offset on, at most as many as fit: 0 exactly past the end or for an empty buffer.
    fn read(&mut self, at: u64, into: &mut [u8]) -> Result<usize, Failed>
        ensures bound { ReadsAtMost result into.new }
        ensures bytes { IfOk result (λ n. IfTold (held self.old) (λ all. Gives all at n into.new)) }
        ensures same { held self.new ≡ held self.old }
        ensures crash { AddsNone (images self.old) (images self.new) }
        ensures time { Elapses (moment self.old) (moment self.new) (images_since self.old) (images_since self.new) (images self.new) }
        ensures cause { HasCause (faults self.old) (faults self.new) result };

    /// Writes over what is there, and past the end. A write that failed may have been done in part.
    fn write_at(&mut self, at: u64, bytes: &[u8]) -> Result<(), Failed>
        requires within { IfTold (held self.old) (λ all. at ≤ length all) }
        ensures written { OnOk result (held self.new ≡ option_map (λ all. overlaid all at bytes.now) (held self.old)) }
        ensures told { OnErr result (is_some (held self.new) ≡ is_some (held self.old)) }
        ensures crash { ImagesFollow (Torn at (length bytes.now)) (images self.old) (images self.new) }
        ensures time { Elapses (moment self.old) (moment self.new) (images_since self.old) (images_since self.new) (images self.new) }
        ensures cause { HasCause (faults self.old) (faults self.new) result };

    /// Sets the length. A longer one is filled up with zeros.
    fn cut(&mut self, len: u64) -> Result<(), Failed>
        ensures cut { OnOk result (held self.new ≡ option_map (λ all. resized all len) (held self.old)) }
        ensures told { OnErr result (is_some (held self.new) ≡ is_some (held self.old)) }
        ensures crash { ImagesFollow (Cut len) (images self.old) (images self.new) }
        ensures time { Elapses (moment self.old) (moment self.new) (images_since self.old) (images_since self.new) (images self.new) }
        ensures cause { HasCause (faults self.old) (faults self.new) result };

    /// After it succeeded, a crash leaves what a read gives.
    fn sync(&mut self) -> Result<(), Failed>
        ensures durable { OnOk result (IfTold (held self.old) (λ all. Only all (images self.new))) }
        ensures same { held self.new ≡ held self.old }
        ensures crash { AddsNone (images self.old) (images self.new) }
        ensures time { Elapses (moment self.old) (moment self.new) (images_since self.old) (images_since self.new) (images self.new) }
        ensures cause { HasCause (faults self.old) (faults self.new) result };

    /// What a read gives is one of the images.
    ghost as_read: { (d : Self) (all : List ℕ) → held d ≡ Some all → images d all };

    /// This moment is one of those since an earlier one.
    ghost counts_now: { (d : Self) (t : ℕ) (c : List ℕ) → t ≤ moment d → images d c → images_since d t c };

    /// Since this moment there is no other.
    ghost only_now: { (d : Self) (c : List ℕ) → images_since d (moment d) c → images d c };
}
