//! A system of keys and facts: what it starts from, what each key gives over the facts so far, and the
//! laws under which its least closed state is reached in any order of work. Facts are a finite map.
#![tactic(auto)]

mod facts;
mod laws;
mod parted;
mod system;

pub use facts::Facts;
pub use laws::{due_graph_is_one, due_keys, due_passes, finer_is_below};
pub use parted::{PARTS, Parted};
pub use system::{Name, System};
