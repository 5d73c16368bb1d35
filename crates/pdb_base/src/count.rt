//! A count of calls.

ghost use Rattle.std.specs.Prelude.{◌≡◌};

/// A count of calls, such as of the length words that a look-up reads.
#[derive(Debug, Default, PartialEq, Eq, Drop)]
pub struct Count {
    calls: u64,
}

impl Count {
    ghost use Rattle.pdb_base.specs.Count.{calls_of, one_more};

    /// Returns a count of no calls.
    pub const fn new() -> Self
        ensures { calls_of result ≡ 0 }
    {
        Count { calls: 0 }
    }

    /// Returns how many calls were counted, at most `u64::MAX`.
    pub fn get(&self) -> u64
        ensures { result ≡ calls_of self.now }
    {
        self.calls
    }

    /// Counts one more call. A count of `u64::MAX` stays as it is.
    pub fn tick(&mut self)
        ensures { calls_of self.new ≡ one_more (calls_of self.old) }
    {
        self.calls = self.calls.saturating_add(1);
    }
}
