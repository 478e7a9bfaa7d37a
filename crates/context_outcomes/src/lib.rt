//! What the contexts of a program come to, as definitions: the arguments, facts, graph, loops and costs of each, which contexts
//! are needed, why one has no bound, and the bound of one that has.
//!
//! Each is the least of its kind over the facts of the whole program, and none says how it is found.
#![tactic(auto)]

mod laws;

pub use laws::{
    bounded_have_no_reasons, needed_are_told, plain_have_bounds, unmatched_are_not_matched,
};
