//! Laws over runs with calls: the activations on the stack of a run walk the graphs of their contexts and spend at
//! most the bounds of these.
//!
//! A run is seen as functions of a place, the number of a machine in it, so that no machine occurs here. Each law is
//! the contract of a function that does nothing, so that the crates above cite it.
#![tactic(auto)]

mod laws;
mod worked_run;

pub use laws::{frames_spend, frames_walk, last_frames_spend, popped_frames_spend};
pub use worked_run::{
    worked_callee_meets_its_bound, worked_frames_spend, worked_frames_walk,
    worked_root_meets_its_bound, worked_run_is_followed,
};
