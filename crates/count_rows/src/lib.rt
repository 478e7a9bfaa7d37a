//! The worked rows of counters: small loops, what their nodes change, what is known at the head, and the bound that the head
//! must have.
#![tactic(auto)]

mod asking;

pub use asking::{AskRefusal, ask_bound};

#[cfg(test)]
mod bounds;
#[cfg(test)]
mod building;
