//! The worked rows of the crates that threads share: the board, the parts and the pool.
#![tactic(auto)]

#[cfg(test)]
mod board;
#[cfg(test)]
mod parts;
#[cfg(test)]
mod pools;
