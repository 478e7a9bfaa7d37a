//! Laws over graphs of calls: results that are made from those of the callees, what followed calls lead to, and the
//! reasons why a context has no bound.
//!
//! Graphs are tests of which subprogram calls which. Each law is the contract of a function that does nothing, so that
//! the crates above cite it.
#![tactic(auto)]

mod laws;
mod worked_calls;

pub use laws::{
    bounded_call_the_bounded, followed_calls_end, found_are_the_needed, needed_are_least,
    plain_reach_the_fit, reason_lists_are_one, results_are_one, results_or_cycles,
    results_reach_no_cycle, rising_lists_are_one, unbounded_reach_a_reason,
};
pub use worked_calls::{
    worked_chains_end, worked_needed, worked_plain, worked_reasons, worked_results,
};
