ghost use Rattle.std.specs.Prelude.{◌≡◌, ℕ, ◌+◌, ◌-◌, ◌<◌, ◌≤◌, ◌^◌, [], ◌∷◌, length, IfOk, MatchOption};
ghost use Rattle.shard_slots.specs.Hold.{Holds, Lacks, without};
ghost use Rattle.shard_slots.specs.Seat.{HoldsNow};
ghost use Rattle.shard_slots.specs.Shards.{count_of};

use crate::hold::Hold;
use crate::rule::{Both, One, OneHolder, Putting, Reaching, Taking};
use crate::seat::ShardSeat;
use crate::slots::{into_slots, out_of_slots};
use atomic_table::Table;
use bt_base::Want;
use std::alloc::Global;
use std::marker::Model;

/// Parts in slots: a part is in its slot, or with the one seat that holds it. It moves by a single exchange, with
/// no lock. Threads share it by reference where `T` is `Send` and `Sync`.
///
/// A contract sees which parts these are and how many, and not what lies in a slot.
#[derive(Drop)]
pub struct Shards<T> {
    table: Table<Option<T>, Hold, (), OneHolder, Global>,
    // It is empty, and has room for all parts.
    parts: Vec<T>,
    count: u32,
}

impl<T> Model for Shards<T> {
    ghost use Rattle.std.specs.Prelude.{◌≡◌, ◌<◌, ◌≤◌, [], vec_capacity};
    ghost use Rattle.shard_slots.specs.Shards.{ShardsId, shards_coded};

    ghost Value = { ShardsId };

    ghost coded = { shards_coded };

    ghost view = { λ s. s.table.shared.table_id };

    ghost invariant = { λ s. (s.table.shared.table_id.words ≡ s.count) × (s.table.shared.table_id.slots ≡ s.count) × (0 < s.count) × (s.parts.items ≡ []) × (s.count ≤ vec_capacity s.parts) };
}

impl<T> Shards<T> {
    /// How many parts there are.
    pub fn count(&self) -> u32
        ensures { result ≡ count_of self.now }
    {
        self.count
    }

    /// A new seat of weight 1, which this one gives; it holds nothing.
    pub fn split(&self, seat: &mut ShardSeat<T>) -> ShardSeat<T>
        requires of { seat.old.of ≡ self.now }
        requires weight { 2 ≤ seat.old.weight }
        ensures seat { seat.new ≡ record { of = seat.old.of; held = seat.old.held; weight = seat.old.weight - 1 } }
        ensures new { result ≡ record { of = self.now; held = []; weight = 1 } }
    {
        let new = self.table.shared.split_seat::<One>(&mut seat.seat);
        ShardSeat { seat: new }
    }

    /// Adds the weight of another seat, which holds nothing, to this one's.
    pub fn join(&self, seat: &mut ShardSeat<T>, other: ShardSeat<T>)
        requires of { seat.old.of ≡ self.now }
        requires other_of { other.of ≡ self.now }
        requires other_held { other.held ≡ [] }
        ensures seat { seat.new ≡ record { of = seat.old.of; held = seat.old.held; weight = seat.old.weight + other.weight } }
        ensures heavy { (1 ≤ seat.old.weight) × (1 ≤ other.weight) }
    {
        let ShardSeat { seat: joined } = other;
        self.table.shared.join_seat::<Both>(&mut seat.seat, joined);
    }

    /// Takes the part with a number out of its slot, if it was there at this step. A seat that has all the weight
    /// finds each part that it doesn't hold.
    pub fn take_shard(&self, seat: &mut ShardSeat<T>, n: u32) -> Option<T>
        requires of { seat.old.of ≡ self.now }
        requires part { n < count_of self.now }
        requires lacks { Lacks seat.old.held n }
        ensures heavy { 1 ≤ seat.old.weight }
        ensures taken { MatchOption result ((seat.new ≡ seat.old) × (seat.old.weight < 128)) (λ _. HoldsNow seat.old seat.new (n ∷ seat.old.held)) }
    {
        let shared = &self.table.shared;
        let found = shared.swap::<Taking>(&mut seat.seat, n as usize, 0);
        let was_home = found == 1;
        if was_home {
            shared.exchange(&mut seat.seat, n as usize, None)
        } else {
            None
        }
    }
}

impl<T: Drop> Shards<T> {
    /// Parts in slots, each home, with the first seat, which has all the weight. Where memory is wanting the parts
    /// are dropped.
    pub fn new(mut parts: Vec<T>) -> Result<(Shards<T>, ShardSeat<T>), Want>
        requires some { 0 < length parts.items }
        requires few { length parts.items < 2 ^ 32 }
        ensures parts { IfOk result (λ made. count_of made.0 ≡ length parts.items) }
        ensures seat { IfOk result (λ made. made.1 ≡ record { of = made.0; held = []; weight = 128 }) }
    {
        let count = parts.len() as u32;
        let alloc = *parts.allocator();
        let words = Vec::from_elem(alloc, 1u64, parts.len())?;
        let slots = into_slots(&mut parts)?;
        match Table::new(alloc, words.as_slice(), slots, &()) {
            Ok((table, seat)) => Ok((
                Shards {
                    table,
                    parts,
                    count,
                },
                ShardSeat { seat },
            )),
            Err(_refused) => Err(Want),
        }
    }

    /// Puts a part that the seat holds into its slot.
    pub fn put_shard(&self, seat: &mut ShardSeat<T>, n: u32, part: T)
        requires of { seat.old.of ≡ self.now }
        requires holds { Holds seat.old.held n }
        ensures heavy { 1 ≤ seat.old.weight }
        ensures put { HoldsNow seat.old seat.new (without n seat.old.held) }
    {
        let shared = &self.table.shared;
        shared.load::<Reaching>(&mut seat.seat, n as usize);
        drop(shared.exchange(&mut seat.seat, n as usize, Some(part)));
        shared.swap::<Putting>(&mut seat.seat, n as usize, 1);
    }

    /// The parts, in order, from the last seat, which has all the weight and holds nothing.
    pub fn close(self, seat: ShardSeat<T>) -> Vec<T>
        requires of { seat.of ≡ self }
        requires weight { seat.weight ≡ 128 }
        requires held { seat.held ≡ [] }
        ensures { length result.items ≡ count_of self }
    {
        let Shards {
            table,
            parts,
            count: _,
        } = self;
        let ShardSeat { seat: last } = seat;
        out_of_slots(table.close_with(last), parts)
    }
}
