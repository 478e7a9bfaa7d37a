//! What a state says of a machine: each cell of the frame on top holds a word that the cell's value has, and the condition
//! codes are those of what the state names. Each law is the contract of a function that does nothing.
#![tactic(auto)]

mod laws;

pub use laws::{
    conditions_are_known, entries_cover, entries_say, greater_states_cover, greater_states_say,
    machines_have_contents, writes_say,
};
