//! Each step of a run does what a closed state of the analysis says: it goes along an edge, makes a call, or comes back, and
//! the state at the program point behind it covers the machine.
//!
//! Each law is the contract of a function that does nothing, so that the crates above cite it.
#![tactic(auto)]

mod laws;

pub use laws::{closed_states_cover_steps, graphs_cover_steps, runs_follow_closed_states};
