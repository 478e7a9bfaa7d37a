//! The worked rows of the rules: an instruction, a state, and the pieces that come of them.
#![tactic(auto)]

#[cfg(test)]
mod delays;
#[cfg(test)]
mod graphs;
#[cfg(test)]
mod images;
#[cfg(test)]
mod steps;
#[cfg(test)]
mod systems;
#[cfg(test)]
mod texts;
#[cfg(test)]
mod ways;
