ghost use Rattle.std.specs.Prelude.{◌≡◌, ℕ, ◌↔◌, List, [], ◌++◌, IsNone, option_to_list};

/// The items of a scenario that one instance of a segmented test owns, each with its moment, in
/// order.
///
/// A source is seen as the pairs that are left.
pub trait IndexSource {
    ghost left: { Self → List (ℕ × ℕ) };

    /// The next owned item's index, from 0, and the moment at which it is due, in nanoseconds from
    /// the scenario's begin. None comes exactly where none is left. Takes no memory.
    fn next(&mut self) -> Option<(u64, u64)>
        ensures first { left self.old ≡ option_to_list result ++ left self.new }
        ensures ended { IsNone result ↔ (left self.old ≡ []) };
}
