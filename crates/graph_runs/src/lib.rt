//! What the due graph of a program says of its runs.
#![tactic(auto)]

mod laws;

pub use laws::runs_follow_due_graphs;
