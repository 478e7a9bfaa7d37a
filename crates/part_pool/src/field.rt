ghost use Rattle.std.specs.Prelude.{◌≡◌, ◌≤◌, [], IfOk};
ghost use Rattle.flow_core.specs.Core.{IsGood, counted_keys};
ghost use Rattle.flow_system.specs.Facts.{fact_at, KeysRise};
ghost use Rattle.flow_system.specs.State.{AllFit, HoldsDue};

use crate::part::Part;
use crate::pieces::copy_pieces;
use bt_base::Want;
use edge_publish::{About, Board};
use flow_core::{Core, GrowRefusal};
use flow_system::{Facts, Name, PARTS, Parted, System};
use shard_slots::{ShardSeat, Shards};
use std::alloc::Global;
use std::marker::{Model, PhantomData};

/// The rule of a board of keys that are due in the named system.
pub struct DueKeys<V, N> {
    value: PhantomData<V>,
    name: PhantomData<N>,
}

impl<K, V, N: Name<K, V>> About<K> for DueKeys<V, N> {
    ghost use Rattle.flow_system.specs.Due.{IsDueKey};

    ghost holds = { λ key. IsDueKey N.rules key };
}

/// The 64 parts of a graph that workers grow, and the board that they put its keys on.
///
/// A contract sees which parts these are, and not what they have, since workers take and put them.
pub struct Field<'a, S: System, N: Name<S::Key, S::Val>> {
    pub(crate) shards: Shards<Part<S, N>>,
    pub(crate) board: &'a Board<S::Key, DueKeys<S::Val, N>>,
    pub(crate) limit: u64,
}

impl<'a, S: System, N: Name<S::Key, S::Val>> Model for Field<'a, S, N> {
    ghost use Rattle.std.specs.Prelude.{◌≡◌};
    ghost use Rattle.shard_slots.specs.Shards.{ShardsId, shards_coded, count_of};

    ghost Value = { ShardsId };

    ghost coded = { shards_coded };

    ghost view = { λ f. f.shards };

    ghost invariant = { λ f. (count_of f.shards ≡ 64) × (f.limit ≡ N.limit) };
}

impl<'a, S: System, N: Name<S::Key, S::Val>> Drop for Field<'a, S, N> {
    fn drop(self) {
        let Field {
            shards: _,
            board: _,
            limit: _,
        } = self;
    }
}

/// The keys of a number.
fn own_keys<S: Parted>(
    alloc: Global,
    system: &S,
    keys: &[S::Key],
    number: u32,
) -> Result<Vec<S::Key>, Want> {
    let mut own = Vec::new(alloc);
    for k in keys {
        if system.part(*k) == number {
            own.push(*k)?;
        }
    }
    Ok(own)
}

/// Begins a part with the facts of its own keys. The limit can't be passed, since all its facts stand in these.
fn part_of<S: Parted, N: Name<S::Key, S::Val>>(
    alloc: Global,
    system: &S,
    facts: &Facts<S::Key, S::Val>,
    keys: &[S::Key],
    number: u32,
    limit: u64,
) -> Result<Part<S, N>, Want>
    requires named { S.rules system.now ≡ N.rules }
    requires limit { limit ≡ N.limit }
    requires fit { AllFit N.rules (fact_at S.Key.cmp facts.now) }
    requires due { HoldsDue N.rules (fact_at S.Key.cmp facts.now) }
    requires rise { KeysRise S.Key.cmp facts.now }
    requires within { counted_keys N.rules facts.now ≤ limit }
{
    let own = own_keys(alloc, system, keys, number)?;
    let pieces = copy_pieces(alloc, system, facts, &own)?;
    let mut part = Part::new(alloc, system, number, limit)?;
    match part.begin(alloc, system, &own, &pieces) {
        Ok(_) => Ok(part),
        Err(GrowRefusal::Want) => Err(Want),
        Err(GrowRefusal::Nodes { count: _ }) => unreachable!(),
    }
}

impl<'a, S: Parted, N: Name<S::Key, S::Val>> Field<'a, S, N> {
    /// A core's facts in parts, each at home, with the seat that has all the weight. Where memory is wanting the core
    /// is dropped.
    pub fn new(
        alloc: Global,
        core: Core<S>,
        system: &S,
        board: &'a Board<S::Key, DueKeys<S::Val, N>>,
    ) -> Result<(Field<'a, S, N>, ShardSeat<Part<S, N>>), Want>
        requires named { S.rules system.now ≡ N.rules }
        requires good { IsGood S.Key.cmp N.rules core }
        requires limit { core.limit ≡ N.limit }
        ensures seat { IfOk result (λ made. made.1 ≡ record { of = made.0; held = []; weight = 128 }) }
    {
        let limit = core.limit();
        let keys = core.facts().keys(alloc)?;
        let mut parts = Vec::new(alloc);
        for number in 0..PARTS {
            let part = part_of(alloc, system, core.facts(), &keys, number, limit)?;
            parts.push(part)?;
        }
        let (shards, seat) = Shards::new(parts)?;
        Ok((
            Field {
                shards,
                board,
                limit,
            },
            seat,
        ))
    }

    /// The parts, shared no more.
    pub(crate) fn into_shards(self) -> Shards<Part<S, N>>
        ensures { result ≡ self.entry }
    {
        let Field {
            shards,
            board: _,
            limit: _,
        } = self;
        shards
    }
}
