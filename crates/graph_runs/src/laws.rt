//! What runs show of due graphs: the law is the contract of a function that does nothing.
ghost use Rattle.graph_runs.specs.Law.{RunsFollowDueGraphs};

/// A run from a root that meets the assertions is followed by the due graph of the program, up to its first gap: each machine
/// in its top frame is covered by the state at its program point, each frame below keeps the cells that the one above may not
/// write, each step within a frame is an edge, each push a call, and each pop lands behind its call and goes on along an edge.
pub fn runs_follow_due_graphs()
    ensures { RunsFollowDueGraphs }
{}
