//! The lines of asserted loops that no loop of the program matches.
#![tactic(auto)]

mod addresses;
mod laws;
mod matching;
mod missing;
mod unmatched_line;

pub use laws::{entries_are_there, points_are_reached};
pub use unmatched_line::unmatched;
