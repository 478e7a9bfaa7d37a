//! What a program comes to is one: the contexts of its calls, their bounds, their outcomes, and the report.
//!
//! Each law is the contract of a function that does nothing, so that the crates above cite it.
#![tactic(auto)]

mod laws;

pub use laws::{
    bounded_call_bounded, bounded_have_no_gap, bounds_are_one, chosen_are_one, contexts_are_one,
    needed_are_contexts, needed_are_entered, outcomes_are_one, outcomes_are_reportable,
    outcomes_of_contexts_are_one, reached_are_bounded, reports_are_one, roots_are_bounded_where,
};
