//! The worked rows of lines, command words, assertions and their binding, as tables of their calls.
#![tactic(auto)]

#[cfg(test)]
mod assertions;
#[cfg(test)]
mod bindings;
#[cfg(test)]
mod lines;
#[cfg(test)]
mod words;
