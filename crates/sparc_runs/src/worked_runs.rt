//! A worked run, its frames, and assertions that it meets and breaks: each is the contract of a function that does nothing.
ghost use Rattle.sparc_runs.specs.Worked.{IsWorkedRun, HasWorkedFrames, RunsMeetAndBreak};

/// The worked run is a run from its entry on.
pub fn worked_run_is_a_run()
    ensures { IsWorkedRun }
{}

/// Its frame is pushed behind the delay instruction of the call, with the machine there, and popped behind that of the return.
pub fn worked_run_has_frames()
    ensures { HasWorkedFrames }
{}

/// Assertions of each kind that it meets, and of each kind that it breaks; one of these is a time that it keeps only before
/// the pop.
pub fn worked_run_meets_and_breaks()
    ensures { RunsMeetAndBreak }
{}
