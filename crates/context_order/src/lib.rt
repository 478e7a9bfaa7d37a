//! The answers of contexts by their numbers in a list: those of callees are worked out before those of their callers.
#![tactic(auto)]

mod answering;
mod entries;
mod known;
mod opened;
mod ordering;
mod rounds;
mod taking;

pub use answering::{answers_of, completed};
pub use entries::answer_at;
pub use known::empty_table;
pub use opened::Opened;
pub use ordering::order;
