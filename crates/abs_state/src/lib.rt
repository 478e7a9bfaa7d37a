//! What is known at a program point: a value for each cell, and what the condition codes are those of. The keys
//! under which such states, and what else the analysis finds, stand.
#![tactic(auto)]

mod args;
mod cells;
mod flags;
mod head_bound;
mod key;
mod laws;
mod state;

pub use args::Args;
pub use flags::{Flags, Right};
pub use head_bound::HeadBound;
pub use key::{GapKind, Key, Next, Place};
pub use laws::{
    keys_are_ordered, states_are_joined, states_are_ordered, states_rise, writes_keep_order,
    writes_stand,
};
pub use state::AbsState;
