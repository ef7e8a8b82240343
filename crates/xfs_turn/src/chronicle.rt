ghost use Rattle.std.specs.Prelude.{◌≡◌, List, length};

/// A value with a list that only grows. Whoever has the turn may add to the list, and keeps what stands in it.
pub trait Chronicle {
    /// An entry of the list.
    type Entry;

    ghost list: { Self → List Self.Entry };

    /// How many entries the list has.
    fn count(&self) -> u64
        ensures { result ≡ length (list self.now) };
}
