//! The law of the stack: where each step of a run shows what the facts say, the whole run is followed, through calls, returns,
//! windows and subprograms that aren't looked into, up to its first open instruction.
//!
//! Each law is the contract of a function that does nothing, so that the crates above cite it.
#![tactic(auto)]

mod laws;

pub use laws::runs_are_followed;
