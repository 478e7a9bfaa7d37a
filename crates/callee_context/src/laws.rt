//! Facts about needed contexts: each is the contract of a function that does nothing.
ghost use Rattle.callee_context.specs.Worklist.{NeededAreListed};

/// A worklist whose contexts are all gone through has all contexts that are needed.
pub fn needed_are_listed()
    ensures { NeededAreListed }
{}
