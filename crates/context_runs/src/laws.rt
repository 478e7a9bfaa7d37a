//! What frames in contexts do: each law is the contract of a function that does nothing.
ghost use Rattle.context_runs.specs.Joined.{RunsKeepContexts};

/// Where the graphs of contexts are filled in from their facts, and what counts in them counts, each frame of a run has at
/// each place walked the graph of its context keeping the head bounds, and each frame with a bounded context has spent at
/// most its bound, at each place without a subprogram that isn't looked into and at its pop.
pub fn runs_keep_contexts()
    ensures { RunsKeepContexts }
{}
