//! What steps change in cells that count: where the program points of contexts change the cells of counters as these say, what
//! counts in the frames of a run counts.
//!
//! Each law is the contract of a function that does nothing, so that the crates above cite it.
#![tactic(auto)]

mod laws;

pub use laws::counters_count;
