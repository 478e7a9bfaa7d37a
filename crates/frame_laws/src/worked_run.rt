//! A small run that meets the definitions: each fact is the contract of a function that does nothing.
ghost use Rattle.frame_laws.specs.Worked.{WorkedRunIsFollowed, WorkedFramesWalk, WorkedFramesSpend, WorkedCalleeMeetsItsBound, WorkedRootMeetsItsBound};

/// The contexts of the run are sound, and each of its steps keeps to them.
pub fn worked_run_is_followed()
    ensures { WorkedRunIsFollowed }
{}

/// Its activations are on walks of their contexts.
pub fn worked_frames_walk()
    ensures { WorkedFramesWalk }
{}

/// Inside the callee both activations are within their bounds.
pub fn worked_frames_spend()
    ensures { WorkedFramesSpend }
{}

/// Once it has returned, the callee has spent exactly its bound.
pub fn worked_callee_meets_its_bound()
    ensures { WorkedCalleeMeetsItsBound }
{}

/// Behind its last step the root has spent exactly its bound.
pub fn worked_root_meets_its_bound()
    ensures { WorkedRootMeetsItsBound }
{}
