//! Where the program points of an image lead: to addresses that are multiples of 4, and from an annulling branch that isn't
//! taken past its delay instruction. Each law is the contract of a function that does nothing.
#![tactic(auto)]

mod laws;

pub use laws::{places_stay_aligned, untaken_pass_delays};
