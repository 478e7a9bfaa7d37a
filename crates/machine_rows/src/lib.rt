//! The worked rows of the decoder, of cycle tables and of the machine's step, as tables of their calls.
#![tactic(auto)]

#[cfg(test)]
mod decoder;
#[cfg(test)]
mod step;
#[cfg(test)]
mod table;
