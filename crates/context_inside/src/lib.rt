//! One context from within: the facts of a subprogram that is entered with certain arguments, over thresholds of its own, and
//! these as a graph.
#![tactic(auto)]

mod knowing;
mod laws;
mod shaping;
mod within;

pub use laws::{contexts_are_below, joins_are_below, plain_are_below, roots_are_below};
pub use within::{Within, within_of};
