//! The thresholds of a program: the numbers at which the ranges of its values may end.
#![tactic(auto)]

mod gathering;
mod numbers;

pub use gathering::thresholds;
