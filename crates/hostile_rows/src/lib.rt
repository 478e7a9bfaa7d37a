//! The rows of hostile use: damaged files, devices that fail or are slow, names that aren't there, and the limits.
#![tactic(auto)]

mod slow_shelf;

pub use slow_shelf::SlowShelf;

#[cfg(test)]
mod calls;
#[cfg(test)]
mod damaged;
#[cfg(test)]
mod devices;
#[cfg(test)]
mod images;
#[cfg(test)]
mod large;
#[cfg(test)]
mod limits;
#[cfg(test)]
mod loops;
