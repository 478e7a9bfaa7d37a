//! Parts of the table of plain contexts: which subprograms are looked into, an order in which callers come first, the join of
//! what all calls of each hand on, and what a table has for what a context enters.
#![tactic(auto)]

mod choosing;
mod entering;
mod joining;
mod listing;
mod ordering;
mod searching;
mod settling;

pub use choosing::{any_arguments, chosen};
pub use entering::{Standing, entered, standing_of};
pub use joining::joins;
pub use listing::{listed, rising_roots};
pub use ordering::order;
pub use searching::{bounds_at, known};
pub use settling::{empty_table, settled_all};
