ghost use Rattle.std.specs.Prelude.{◌≡◌, ◌+◌, ◌<◌, ◌≤◌, ◌^◌, [], IfOk, IfErr};
ghost use Rattle.std.specs.Thread.{IsSync};
ghost use Rattle.flow_core.specs.Core.{counted_keys};
ghost use Rattle.flow_core.specs.Refusal.{IsTooBig};
ghost use Rattle.flow_system.specs.Facts.{fact_at};
ghost use Rattle.flow_system.specs.State.{IsDueGraph};

use crate::field::{DueKeys, Field};
use crate::labouring::labour;
use crate::part::Part;
use crate::sum::gather;
use crate::telling::publish;
use bt_base::Want;
use edge_publish::Board;
use flow_core::{Closed, Core, GrowRefusal};
use flow_system::{Name, Parted};
use shard_slots::ShardSeat;
use std::alloc::Global;
use std::marker::Brand;
use std::sync::Wait;
use std::thread::{Threads, join};
use worker_pool::{Gate, NODE_LIMIT, settle};

/// Workers `first` to `first + count - 1`, each in a thread of its own where one can be made, and each with a seat of
/// its own, whose weight comes back.
fn labour_all<R: Threads + Wait + Sync, S: Parted + Sync, N: Name<S::Key, S::Val>, G: Gate + Sync>(
    rt: &R,
    alloc: Global,
    field: &Field<'_, S, N>,
    seat: ShardSeat<Part<S, N>>,
    system: &S,
    first: u32,
    count: u32,
    gate: &G,
) -> (ShardSeat<Part<S, N>>, Result<(), GrowRefusal>)
where
    S::Key: Send + Sync,
    S::Val: Send + Sync,
    N: Send + Sync,
    requires named { S.rules system.now ≡ N.rules }
    requires of { seat.of ≡ field.now }
    requires held { seat.held ≡ [] }
    requires weight { count ≤ seat.weight }
    requires small { first + count < 2 ^ 32 }
    ensures seat { result.0 ≡ seat }
    ensures nodes { IfErr result.1 (IsTooBig S.Key.cmp N.rules N.limit) }
{
    let mut seat = seat;
    if count <= 1 {
        let done = labour(rt, alloc, field, &mut seat, system, first, gate);
        return (seat, done);
    }
    let rest = count - 1;
    let mut other = field.shards.split(&mut seat);
    let ((mut seat, low), (other, high)) = join(
        rt,
        || -> (ShardSeat<Part<S, N>>, Result<(), GrowRefusal>)
            requires { IsSync R.row × (S.rules system.now ≡ N.rules) × (seat.of ≡ field.now) × (seat.held ≡ []) × (rest ≤ seat.weight) × (first + rest < 2 ^ 32) }
            ensures { (result.0 ≡ seat) × IfErr result.1 (IsTooBig S.Key.cmp N.rules N.limit) }
        { labour_all(rt, alloc, field, seat, system, first, rest, gate) },
        || -> (ShardSeat<Part<S, N>>, Result<(), GrowRefusal>)
            requires { IsSync R.row × (S.rules system.now ≡ N.rules) × (other.of ≡ field.now) × (other.held ≡ []) × (first + rest < 2 ^ 32) }
            ensures { (result.0 ≡ other) × IfErr result.1 (IsTooBig S.Key.cmp N.rules N.limit) }
        {
            let done = labour(rt, alloc, field, &mut other, system, first + rest, gate);
            (other, done)
        },
    );
    field.shards.join(&mut seat, other);
    (seat, low.and(high))
}

/// Puts the keys of the start pieces on a board, since `labour` doesn't find these new.
pub fn publish_starts<R: Wait, S: Parted, N: Name<S::Key, S::Val>>(
    rt: &R,
    alloc: Global,
    system: &S,
    board: &Board<S::Key, DueKeys<S::Val, N>>,
) -> Result<(), Want>
    requires named { S.rules system.now ≡ N.rules }
{
    for piece in &system.starts(alloc)? {
        publish(rt, board, piece.0)?;
    }
    Ok(())
}

/// The due graph of a system, grown by workers part by part, whose keys are read from the board meanwhile. Once it
/// ended each key of the graph is on the board where the workers found it, and each key on the board is of the graph.
///
/// The answer is that of `grow_alone`, for every number of workers, every gate and every order of their work: once the
/// parts are gathered, `settle` asks nothing of them. Nodes comes exactly where the due graph has more counted keys
/// than `NODE_LIMIT`.
pub fn grow_on<R: Threads + Wait + Sync, S: Parted + Sync, N: Name<S::Key, S::Val>, G: Gate + Sync>(
    rt: &R,
    alloc: Global,
    system: &S,
    workers: u32,
    gate: &G,
    board: &Board<S::Key, DueKeys<S::Val, N>>,
) -> Result<Closed<S>, GrowRefusal>
where
    S::Key: Send + Sync,
    S::Val: Send + Sync,
    N: Send + Sync,
    requires named { S.rules system.now ≡ N.rules }
    requires limit { N.limit ≡ 131072 }
    requires workers { (1 ≤ workers) × (workers ≤ 64) }
    ensures due { IfOk result (λ closed. IsDueGraph (S.rules system.now) (fact_at S.Key.cmp closed)) }
    ensures within { IfOk result (λ closed. counted_keys (S.rules system.now) closed ≤ 131072) }
    ensures nodes { IfErr result (IsTooBig S.Key.cmp (S.rules system.now) 131072) }
{
    publish_starts(rt, alloc, system, board)?;
    let core = Core::new(alloc, system, NODE_LIMIT)?;
    let (field, seat) = Field::new(alloc, core, system, board)?;
    let (seat, done) = labour_all(rt, alloc, &field, seat, system, 0, workers, gate);
    done?;
    let grown = gather(alloc, field, seat, system)?;
    settle(alloc, grown, system)
}

/// Grows a graph on a new board.
fn grow_on_new<R: Threads + Wait + Sync, S: Parted + Sync, N: Name<S::Key, S::Val>, G: Gate + Sync>(
    rt: &R,
    alloc: Global,
    system: &S,
    workers: u32,
    gate: &G,
) -> Result<Closed<S>, GrowRefusal>
where
    S::Key: Send + Sync,
    S::Val: Send + Sync,
    N: Send + Sync,
    requires named { S.rules system.now ≡ N.rules }
    requires limit { N.limit ≡ 131072 }
    requires workers { (1 ≤ workers) × (workers ≤ 64) }
    ensures due { IfOk result (λ closed. IsDueGraph (S.rules system.now) (fact_at S.Key.cmp closed)) }
    ensures within { IfOk result (λ closed. counted_keys (S.rules system.now) closed ≤ 131072) }
    ensures nodes { IfErr result (IsTooBig S.Key.cmp (S.rules system.now) 131072) }
{
    let board: Board<S::Key, DueKeys<S::Val, N>> = Board::new(alloc)?;
    grow_on(rt, alloc, system, workers, gate, &board)
}

/// The due graph of a system, grown by workers part by part.
///
/// The answer is that of `grow_alone`, for every number of workers, every gate and every order of their work. Nodes
/// comes exactly where the due graph has more counted keys than `NODE_LIMIT`.
pub fn grow<R: Threads + Wait + Sync, S: Parted + Sync, G: Gate + Sync>(
    rt: &R,
    alloc: Global,
    system: &S,
    workers: u32,
    gate: &G,
) -> Result<Closed<S>, GrowRefusal>
where
    S::Key: Send + Sync,
    S::Val: Send + Sync,
    requires workers { (1 ≤ workers) × (workers ≤ 64) }
    ensures due { IfOk result (λ closed. IsDueGraph (S.rules system.now) (fact_at S.Key.cmp closed)) }
    ensures within { IfOk result (λ closed. counted_keys (S.rules system.now) closed ≤ 131072) }
    ensures nodes { IfErr result (IsTooBig S.Key.cmp (S.rules system.now) 131072) }
{
    grow_on_new::<R, S, Brand, G>(rt, alloc, system, workers, gate)
}
