//! The language of assertion files: its statements, and how they are read from a text.
#![tactic(auto)]

mod assertion;
mod keyword;
mod laws;
mod name;
mod numbers;
mod parsing;
mod places;
mod refusal;
mod registers;
mod slots;
mod spot;
mod statements;
mod words;

pub use assertion::{Assertion, Assertions, Body};
pub use laws::{columns_are_right, lines_are_parted, misfits_are_first, statements_are_written};
pub use name::Name;
pub use parsing::parse;
pub use refusal::{AssertRefusal, Expected};
pub use spot::{Spot, Spots};
