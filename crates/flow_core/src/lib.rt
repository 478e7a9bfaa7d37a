//! The core of a least fixed point: facts, pending keys, and claims that are out.
#![tactic(auto)]

mod claims;
mod cores;
mod driving;
mod queue;
mod readers;
mod refusals;
mod staging;
mod theorems;
mod writing;

pub use claims::{Answer, Claim};
pub use cores::{Closed, Core};
pub use driving::drive;
pub use refusals::GrowRefusal;
pub use theorems::{due_facts_are_one, every_run_is_good};
