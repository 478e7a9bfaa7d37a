//! A worked run: the contract of a function that does nothing.
ghost use Rattle.step_covers.specs.Worked.{WorkedRunIsCovered};

/// Ten machines over an accepted file, with a load of a constant, a comparison, an annulling branch that isn't taken and a
/// branch that is: each step does what the act of its place says, and the state to which the steps lead covers the last.
pub fn worked_run_is_covered()
    ensures { WorkedRunIsCovered }
{}
