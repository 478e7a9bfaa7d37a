//! The laws of what shifts with sign and condition codes mean in numbers, at small words, so that none of them is empty: each
//! is the contract of a function that calls the law.
#![tactic(auto)]

mod numbers;

pub use numbers::{lesser_is_taken, one_is_added, seven_is_halved};
