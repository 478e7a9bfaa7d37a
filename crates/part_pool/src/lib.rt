//! Workers that grow one graph by parts: each key belongs to one of 64 parts, a part moves between its slot and the
//! worker that holds it by single exchanges, and the keys that are found are read from a board while the graph grows.
#![tactic(auto)]

mod field;
mod growing;
mod handing;
mod holding;
mod labouring;
mod mail;
mod part;
mod pieces;
mod sum;
mod telling;

pub use field::{DueKeys, Field};
pub use growing::{grow, grow_on, publish_starts};
pub use holding::every_holding_is_good;
pub use labouring::labour;
pub use part::Part;
pub use sum::{gather, sum_of};
