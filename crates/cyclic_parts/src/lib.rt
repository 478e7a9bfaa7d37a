//! The cyclic parts of a graph: the sets of nodes that all lead to each other by at least one edge.
#![tactic(auto)]

mod marking;
mod naming;
mod ordering;
mod parting;
mod searching;
mod splitting;
mod turning;

pub use ordering::order_of;
pub use splitting::parts_of;
