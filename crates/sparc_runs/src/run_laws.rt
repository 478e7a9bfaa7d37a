//! What holds at the places of a run: each law is the contract of a function that does nothing.
ghost use Rattle.sparc_runs.specs.Activation.{ActivationsAreFrames};
ghost use Rattle.sparc_runs.specs.High.{PushesKeepHigh, HighFramesAreAbove};
ghost use Rattle.sparc_runs.specs.Meets.{SightsMeet, TargetsAreTaken};
ghost use Rattle.sparc_runs.specs.Place.{RunsAreAtPlaces, EmptyStacksStay};
ghost use Rattle.sparc_runs.specs.Running.{StepsKeepRunning, RunsAreRunning, DelaysKeepLinks};
ghost use Rattle.sparc_runs.specs.Stub.{PopsBehindCallsGoOn, StubsKeepFramesBelow};

/// The machine, the transfer that is due and the stack of frames at each place of a run, and the next of each.
pub fn runs_are_at_places()
    ensures { RunsAreAtPlaces }
{}

/// Once the frame of the root is popped the stack stays empty: a call then pushes nothing.
pub fn empty_stacks_stay()
    ensures { EmptyStacksStay }
{}

/// Every step keeps what holds of each machine of a run with the transfer that is due.
pub fn steps_keep_running()
    ensures { StepsKeepRunning }
{}

/// What holds at every place of a run from an entry on, also where a subprogram isn't looked into: the machine, its window,
/// the transfer that is due, and how each frame of the stack was pushed.
pub fn runs_are_running()
    ensures { RunsAreRunning }
{}

/// The delay instruction of a call keeps the window, and r15 with the call's address.
pub fn delays_keep_links()
    ensures { DelaysKeepLinks }
{}

/// A frame that is popped eight bytes behind its call goes on there, and nothing is due.
pub fn pops_behind_calls_go_on()
    ensures { PopsBehindCallsGoOn }
{}

/// A push at depth 0 or 1 keeps the windows of a stack in order.
pub fn pushes_keep_high()
    ensures { PushesKeepHigh }
{}

/// In a stack whose windows lie in order each frame stands above the one on top by the difference of their levels.
pub fn high_frames_are_above()
    ensures { HighFramesAreAbove }
{}

/// Where a stub's frame is popped, r16 to r31 of the window of each frame below it are as at its push.
pub fn stubs_keep_frames_below()
    ensures { StubsKeepFramesBelow }
{}

/// Activations have the frames of the stack, and the one on top was on top at this place.
pub fn activations_are_frames()
    ensures { ActivationsAreFrames }
{}

/// What a run that meets assertions shows at each place meets each of them.
pub fn sights_meet()
    ensures { SightsMeet }
{}

/// The target that a step shows is where it goes behind its delay instruction.
pub fn targets_are_taken()
    ensures { TargetsAreTaken }
{}
