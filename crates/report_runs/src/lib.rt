//! What the report of a program says of its runs.
#![tactic(auto)]

mod laws;

pub use laws::{code_binds, outcomes_hold_of_runs};
