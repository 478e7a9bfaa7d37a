//! Workers that extend one growing graph under a lock, and what drives it to its end whatever they did.
#![tactic(auto)]

mod gate;
mod grow;
mod labour;

pub use gate::{Gate, NoGate};
pub use grow::{NODE_LIMIT, grow_alone, grow_pooled, settle};
pub use labour::labour_pooled;
