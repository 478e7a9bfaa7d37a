//! Runs of the machine in contexts: each frame walks the graph of its context, keeping the head bounds, and spends at most
//! its bound.
//!
//! Each law is the contract of a function that does nothing, so that the crates above cite it.
#![tactic(auto)]

mod laws;

pub use laws::runs_keep_contexts;
