//! Small graphs with the nests and the greatest costs that they must have.
#![tactic(auto)]

mod asking;
mod ordering;
mod reaching;

pub use asking::{AskRefusal, ask_longest, ask_nest, ask_step};
pub use reaching::all_are_led_to;

#[cfg(test)]
mod graphs;
#[cfg(test)]
mod nests;
#[cfg(test)]
mod turns;
#[cfg(test)]
mod walking;
#[cfg(test)]
mod walks;
