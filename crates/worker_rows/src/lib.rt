//! The worked rows of the program's commands by workers.
#![tactic(auto)]

#[cfg(test)]
mod held;
#[cfg(test)]
mod module;
#[cfg(test)]
mod rows;
