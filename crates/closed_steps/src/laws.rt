//! What steps of runs show of facts: each law is the contract of a function that does nothing.
ghost use Rattle.closed_steps.specs.Graph.{ClosedStatesCoverSteps, GraphsCoverSteps};
ghost use Rattle.closed_steps.specs.Runs.{RunsFollowClosedStates};

/// Where the facts at each stack of frames lead on within them, and say of subprograms and of gaps what the rules say, each step
/// of a run that meets the assertions, from a covered machine where nothing is open, shows what the law of the stack asks: it
/// goes along an edge to a covered machine, or makes a call and enters it, or comes back.
pub fn graphs_cover_steps()
    ensures { GraphsCoverSteps }
{}

/// So do the facts of any closed state of the rules, at every stack: those of the due graph among them.
pub fn closed_states_cover_steps()
    ensures { ClosedStatesCoverSteps }
{}

/// A run from a root that meets the assertions is followed by the facts of any closed state, up to its first gap: each machine in
/// its top frame is covered by the state at its program point, each frame below keeps the cells that the one above may not
/// write, each step within a frame is an edge, each push a call, and each pop lands behind its call and goes on along an edge.
pub fn runs_follow_closed_states()
    ensures { RunsFollowClosedStates }
{}
