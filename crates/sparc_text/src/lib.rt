//! The text of instructions of SPARC Version 7, and the listing of the code of an executable.
#![tactic(auto)]

mod laws;
mod lines;
mod names;
mod operands;
mod texts;

pub use laws::{code_has_words, lines_tell_words, listing_is_one};
pub use lines::{line, listing};
