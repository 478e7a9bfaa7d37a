//! Sums of turns: by how much each turn of a loop changes a cell at the least, where all turns change it one way.
//!
//! Such a cell bounds how often the head of the loop is passed from one entry into its body to the next.
#![tactic(auto)]

mod labels;
mod laws;
mod step;
mod turning;

pub use laws::{step_bounds_passes, step_is_one};
pub use step::TurnStep;
pub use turning::turn_step;
