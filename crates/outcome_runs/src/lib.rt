//! Runs in the contexts of outcomes: the outcomes of a program are a family of contexts with their graphs, calls, loops and
//! bounds, so that each frame of a run spends at most the bound that is told of its context.
//!
//! Each law is the contract of a function that does nothing, so that the crates above cite it.
#![tactic(auto)]

mod laws;

pub use laws::{
    bounded_roots_meet_no_gap, bounded_runs_spend, outcomes_are_asserted, outcomes_are_contexts,
    outcomes_are_filled, outcomes_are_sound, outcomes_are_told, outcomes_count,
    runs_spend_outcomes,
};
