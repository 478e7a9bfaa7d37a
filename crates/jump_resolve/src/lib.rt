//! Where a computed jump or call may go: which of the addresses that it may be, and whether there are others.
#![tactic(auto)]

mod laws;
mod resolved;
mod resolving;

pub use laws::{targets_are_exact, targets_are_few, targets_rise};
pub use resolved::{Resolved, TargetList};
pub use resolving::targets;
