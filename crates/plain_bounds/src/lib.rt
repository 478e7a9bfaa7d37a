//! Which subprograms are plain: the arguments of the plain context of each, and the bound of that, where there is one.
#![tactic(auto)]

mod contexts;
mod entries;
mod plain;
mod rounds;
mod table;

pub use plain::plain_bounds;
pub use table::PlainBounds;
