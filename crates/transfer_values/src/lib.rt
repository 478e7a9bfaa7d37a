//! The functions that compute with states over thresholds: the state behind a step, what a branch's direction and the
//! assertions leave of a state, and where a transfer goes.
#![tactic(auto)]

mod laws;
mod narrowing;
mod operands;
mod resolving;
mod sources;
mod stepping;
mod testing;

pub use laws::{
    families_are_lawful, sources_cover, states_fall, states_stay_over, targets_cover, targets_fall,
};
pub use narrowing::narrowed;
pub use resolving::resolved;
pub use stepping::stepped;
pub use testing::tested;
