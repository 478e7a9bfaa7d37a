//! The rule of a table of parts, and what each step on it tells its seat. These types stand in proofs alone.
ghost use Rattle.std.specs.Prelude.{[]};
ghost use Rattle.shard_slots.specs.Hold.{hold};
ghost use Rattle.shard_slots.specs.Play.{Took, Put, Reaches};
ghost use Rattle.shard_slots.specs.Table.{IsKept};

use crate::hold::Hold;
use atomic_table::{Join, Play, Split, TableRule};

/// Each part is home or out with one seat, the seats weigh 128, and one that weighs nothing holds nothing.
pub struct OneHolder;

impl<T> TableRule<Option<T>, Hold, ()> for OneHolder {
    ghost holds = { λ _. IsKept };

    ghost first = { λ _. hold 128 [] };
}

/// An exchange that leaves a slot empty.
pub struct Taking;

impl<T> Play<Option<T>, Hold> for Taking {
    ghost then = { λ step before found after. Took step.word before found after };
}

/// A load after which the seat reaches the slot of a part that it holds.
pub struct Reaching;

impl<T> Play<Option<T>, Hold> for Reaching {
    ghost then = { λ step before _ after. Reaches step.word before after };
}

/// An exchange that puts a part into its slot.
pub struct Putting;

impl<T> Play<Option<T>, Hold> for Putting {
    ghost then = { λ step before _ after. Put step.word before after };
}

/// A weight of 1 for a new seat.
pub struct One;

impl Split<Hold> for One {
    ghost use Rattle.std.specs.Prelude.{◌-◌, []};
    ghost use Rattle.shard_slots.specs.Hold.{hold};

    ghost left = { λ seat. hold (seat.weight - 1) seat.held };

    ghost right = { λ _. hold 1 [] };
}

/// The weight of two seats for one of them.
pub struct Both;

impl Join<Hold> for Both {
    ghost use Rattle.std.specs.Prelude.{◌+◌, []};
    ghost use Rattle.shard_slots.specs.Hold.{hold};

    ghost both = { λ seat other. hold (seat.weight + other.weight) seat.held };

    ghost spent = { hold 0 [] };
}
