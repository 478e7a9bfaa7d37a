//! The lines of a text, their comments, their words and the numbers in them: the layout that cycle tables and
//! assertion files share.
#![tactic(auto)]

mod cutting;
mod lines;
mod numerals;
mod piece;
mod words;

pub use cutting::cut_at;
pub use lines::{next_line, uncommented};
pub use numerals::number_up_to;
pub use piece::Piece;
pub use words::{is_blank, next_word, unblanked};
