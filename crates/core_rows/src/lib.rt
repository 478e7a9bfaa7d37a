//! Two small systems, and the worked rows of the crates that grow least fixed points, with no thread.
#![tactic(auto)]

mod relay;
mod ring;

pub use relay::{Relay, can_restrict};
pub use ring::Ring;

#[cfg(test)]
mod cores;
#[cfg(test)]
mod facts;
#[cfg(test)]
mod laws;
#[cfg(test)]
mod restricted;
