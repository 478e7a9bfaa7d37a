//! Parts that move by single exchanges: each part has a slot, and is in it or with the one seat that holds it.
//! Any thread takes and puts through a shared reference, and no call waits for another.
#![tactic(auto)]

mod hold;
mod laws;
mod rule;
mod seat;
mod shards;
mod slots;

pub use laws::{parts_have_one_holder, parts_keep_the_rule, steps_keep_the_rule};
pub use seat::ShardSeat;
pub use shards::Shards;
