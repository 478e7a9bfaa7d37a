//! What runs do over the facts of contexts: each law is the contract of a function that does nothing.
ghost use Rattle.context_steps.specs.Followed.{ContextsCoverSteps, ContextsFollowRuns, RunsArePlaced, RunsSpendBounds};

/// Each step of a run shows what the law of the stack asks of the facts of the contexts in which frames stand, and of a closed
/// state where a frame has no context.
pub fn contexts_cover_steps()
    ensures { ContextsCoverSteps }
{}

/// A run from a root that meets the assertions can be followed over the facts of the contexts of its frames.
pub fn contexts_follow_runs()
    ensures { ContextsFollowRuns }
{}

/// Where the graphs of contexts are filled in from their facts, such a run stands at their program points, up to its first gap.
pub fn runs_are_placed()
    ensures { RunsArePlaced }
{}

/// Up to its first gap each frame of such a run walks the graph of its context keeping the bounds of its heads, and each frame
/// with a bounded context spends at most its bound, at each place and at its pop.
pub fn runs_spend_bounds()
    ensures { RunsSpendBounds }
{}
