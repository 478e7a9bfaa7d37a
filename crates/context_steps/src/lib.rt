//! Runs over the facts of contexts: each step shows what the law of the stack asks of the facts of the context in which a frame
//! stands, and each frame walks its context's graph and spends at most its bound.
//!
//! Each law is the contract of a function that does nothing, so that the crates above cite it.
#![tactic(auto)]

mod laws;

pub use laws::{contexts_cover_steps, contexts_follow_runs, runs_are_placed, runs_spend_bounds};
