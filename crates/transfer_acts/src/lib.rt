//! What the instruction of a program point does, as a step over cells and a way to go on (SPARC Architecture Manual
//! Version 7, "Instructions").
#![tactic(auto)]

mod acting;
mod branching;
mod flags;
mod laws;
mod operands;
mod places;
mod reading;
mod steps;
mod transfers;

pub use laws::{acts_agree_with_frames, programs_are_lawful};
pub use places::act_at;
pub use reading::{is_stub, skips};
