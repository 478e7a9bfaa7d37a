//! What counts in frames: each law is the contract of a function that does nothing.
ghost use Rattle.counted_runs.specs.Asserted.{AssertedCountsAreKept};

/// Where a run meets the assertions, each frame in a context keeps the bound of each head that is asserted there.
pub fn asserted_counts_are_kept()
    ensures { AssertedCountsAreKept }
{}
