//! The worked rows of cells, masks, states and jumps, and of what computes with states over thresholds: tables of their
//! calls.
#![tactic(auto)]

#[cfg(test)]
mod branches;
#[cfg(test)]
mod building;
#[cfg(test)]
mod joins;
#[cfg(test)]
mod jumps;
#[cfg(test)]
mod masks;
#[cfg(test)]
mod states;
#[cfg(test)]
mod steps;
#[cfg(test)]
mod transfers;
