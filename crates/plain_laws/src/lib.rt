//! Plain subprograms: what their bounds are is one, whatever shows it.
//!
//! Each law is the contract of a function that does nothing, so that the crates above cite it.
#![tactic(auto)]

mod laws;

pub use laws::{open_calls_are_against, plain_bounds_are_one, reasons_are_against};
