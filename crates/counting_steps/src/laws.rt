//! What counts in frames: each law is the contract of a function that does nothing.
ghost use Rattle.counting_steps.specs.Counted.{CountersCount};

/// Where the program points of contexts change the cells of counters as these say, and asserted counts are kept, at each head of
/// a run the cell is within the counter's numbers, and each step, and each call as a whole, changes it by what its node adds and
/// takes.
pub fn counters_count()
    ensures { CountersCount }
{}
