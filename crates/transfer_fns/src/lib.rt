//! The system of an image and of the assertions that are bound to it: what each program point contributes to the facts.
#![tactic(auto)]

mod laws;
mod parted;
mod parts;
mod system;
mod using;

pub use laws::using_is_finer;
pub use system::SparcSystem;
pub use using::Using;
