//! The worked rows of words and values, as tables of their calls: word operations, sets and ranges and their joins,
//! operations, and refinement; and instances of the laws of values, operations and refinement.
#![tactic(auto)]

#[cfg(test)]
mod chains;
#[cfg(test)]
mod lattice;
#[cfg(test)]
mod laws;
#[cfg(test)]
mod least;
#[cfg(test)]
mod monotone;
#[cfg(test)]
mod operations;
#[cfg(test)]
mod refinement;
#[cfg(test)]
mod words;
