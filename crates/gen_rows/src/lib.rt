//! The worked rows of executables that are made, as tables of their calls.
#![tactic(auto)]

#[cfg(test)]
mod files;
#[cfg(test)]
mod reading;
