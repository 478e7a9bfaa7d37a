//! The nest of a graph: its loops, each with one head, or the two least entries of the first part that has two.
#![tactic(auto)]

mod entering;
mod finding;
mod keeping;
mod looking;
mod marking;
mod natural_loop;
mod nesting;
mod ordering;
mod parting;
mod placing;
mod refusal;
mod rising;
mod searching;
mod splitting;
mod turning;

pub use natural_loop::Loop;
pub use nesting::{LoopNest, nest};
pub use refusal::NestRefusal;
