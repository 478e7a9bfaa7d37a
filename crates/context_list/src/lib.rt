//! Contexts in the order in which they were found, with the number of each.
#![tactic(auto)]

mod codes;
mod copies;
mod found;

pub use copies::{copy_args, copy_context};
pub use found::Found;
