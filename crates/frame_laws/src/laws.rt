//! Laws on the activations of a run: each is the contract of a function that does nothing.
ghost use Rattle.frame_laws.specs.Laws.{FramesWalk, FramesSpend, PoppedFramesSpend, LastFramesSpend};

/// At each place of a run whose steps keep to the contexts, each activation in a context has gone on a walk of the
/// context's graph that keeps the head bounds.
pub fn frames_walk()
    ensures { FramesWalk }
{}

/// At each place without an activation whose time is asserted, each in a bounded context has spent at most its bound.
pub fn frames_spend()
    ensures { FramesSpend }
{}

/// An activation in a bounded context has spent at most its bound once it has returned.
pub fn popped_frames_spend()
    ensures { PoppedFramesSpend }
{}

/// The top activation in a bounded context has spent at most its bound behind the next step too, whatever it leads to.
pub fn last_frames_spend()
    ensures { LastFramesSpend }
{}
