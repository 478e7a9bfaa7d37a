//! A system restricted to some of its keys, with fixed facts beside it: what is least there is the least map over
//! these keys that is closed with the fixed facts.
#![tactic(auto)]

mod keeping;
mod least;
mod local;

pub use keeping::is_kept;
pub use least::{due_is_least, least_facts, least_is_one, local_passes};
pub use local::Local;
