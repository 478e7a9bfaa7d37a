//! What counts in the frames of a run counts: asserted counts are kept in each frame, as bounds of the heads of its context.
//!
//! Each law is the contract of a function that does nothing, so that the crates above cite it.
#![tactic(auto)]

mod laws;

pub use laws::asserted_counts_are_kept;
