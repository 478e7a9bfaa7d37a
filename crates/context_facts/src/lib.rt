//! The facts of contexts: of a subprogram that is entered with certain arguments, over thresholds of its own, what its program
//! points give within it.
//!
//! Each law is the contract of a function that does nothing, so that the crates above cite it.
#![tactic(auto)]

mod laws;

pub use laws::{contexts_answer, contexts_enter, least_maps_are_contexts};
