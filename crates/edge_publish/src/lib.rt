//! A board of keys that is read while it grows: any thread publishes through a shared reference, and any
//! thread reads, with no lock. What was published is read back through its receipt, for good.
#![tactic(auto)]

mod board;
mod laws;
mod sight;

pub use board::{About, Board, Receipt, Ruled};
pub use laws::looks_give_own;
pub use sight::Look;
