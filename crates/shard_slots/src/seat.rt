ghost use Rattle.std.specs.Prelude.{ℕ, List};

use crate::hold::Hold;
use atomic_table::Seat;
use std::marker::Model;

/// A seat at parts in slots: it holds parts that it took, and has a weight. The weights of all seats add up to 128.
///
/// A contract sees of which parts it is, the numbers of the parts that it holds, and its weight.
#[derive(Drop)]
pub struct ShardSeat<T> {
    pub(crate) seat: Seat<Option<T>, Hold>,
}

impl<T> Model for ShardSeat<T> {
    ghost use Rattle.shard_slots.specs.Seat as seats;

    ghost Value = { seats.Seat };

    ghost coded = { seats.seat_coded };

    ghost view = { λ s. record { of = s.seat.table_id; held = s.seat.me.0.held; weight = s.seat.me.0.weight } };

    ghost invariant = { λ s. seats.IsSeat s.seat.table_id s.seat.me };
}
