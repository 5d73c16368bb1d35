//! Iterators of which each step can fail.

ghost use Rattle.std.specs.Prelude.{Option, Result};

/// An iterator of which each step can fail.
pub trait FallibleIterator {
    /// The type of the items.
    type Item;

    /// The type of the errors.
    type Error;

    // Holds of the state before a step, its result, and the state after. Each iterator says which.
    ghost next_gives: { Self → Result (Option Self.Item) Self.Error → Self → Type 0 };

    /// Returns the next item, or None at the end.
    ///
    /// # Errors
    /// Each iterator documents its own errors.
    fn next(&mut self) -> Result<Option<Self::Item>, Self::Error>
        ensures { next_gives self.old result self.new };
}
