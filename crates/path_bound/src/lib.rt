//! The greatest cost of the walks through a graph that keep a bound on the passes of each loop's head.
#![tactic(auto)]

mod adding;
mod answering;
mod blaming;
mod bounding;
mod choosing;
mod following;
mod long_walk;
mod passing;
mod placing;
mod ranking;
mod refusal;
mod stepping;
mod surveying;
mod turning;
mod weights;

pub use bounding::longest;
pub use long_walk::{LongWalk, Turn};
pub use refusal::PathRefusal;
pub use weights::Costs;
