//! What a program point gives over the facts, computed piece by piece over any functions that compute with states.
#![tactic(auto)]

mod arguments;
mod calls;
mod facts;
mod giving;
mod masks;
mod nodes;
mod pieces;
mod places;
mod starting;
mod transfers;
mod ways;

pub use facts::{at_most, copy, join};
pub use giving::{counted, give, reads};
pub use starting::starts;
pub use transfers::Transfers;
