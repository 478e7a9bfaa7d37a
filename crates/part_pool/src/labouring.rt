ghost use Rattle.std.specs.Prelude.{◌≡◌, ◌≢◌, ◌<◌, [], ◌∷◌, IfErr};
ghost use Rattle.flow_core.specs.Claim.{IsClaimOf};
ghost use Rattle.flow_core.specs.Refusal.{IsTooBig};

use crate::field::{DueKeys, Field};
use crate::handing::hand_over;
use crate::part::Part;
use edge_publish::Board;
use flow_core::{Claim, GrowRefusal};
use flow_system::{Name, PARTS, Parted};
use shard_slots::ShardSeat;
use std::alloc::Global;
use std::sync::Wait;
use worker_pool::Gate;

/// Works a claim out, passes the gate, and merges the answer; true where a fact grew. A refusal gives the claim back.
fn work_out<R: Wait, S: Parted, N: Name<S::Key, S::Val>, G: Gate>(
    rt: &R,
    alloc: Global,
    system: &S,
    board: &Board<S::Key, DueKeys<S::Val, N>>,
    part: &mut Part<S, N>,
    claim: Claim<S>,
    worker: u32,
    number: u64,
    gate: &G,
) -> Result<bool, GrowRefusal>
    requires named { S.rules system.now ≡ N.rules }
    requires of { IsClaimOf S.Key.cmp N.rules claim }
    ensures too_big { IfErr result (IsTooBig S.Key.cmp N.rules N.limit) }
{
    let answer = match claim.work(alloc, system) {
        Ok(answer) => answer,
        Err(refused) => {
            part.give_back(refused.0);
            return Err(GrowRefusal::Want);
        }
    };
    gate.pass(worker, number);
    match part.merge(rt, alloc, system, board, answer) {
        Ok(grown) => Ok(grown > 0),
        Err(refused) => {
            part.give_back(refused.0.claim());
            Err(refused.1)
        }
    }
}

/// Works the own pending keys of a part until none is left; true where a fact grew.
fn work_part<R: Wait, S: Parted, N: Name<S::Key, S::Val>, G: Gate>(
    rt: &R,
    alloc: Global,
    system: &S,
    board: &Board<S::Key, DueKeys<S::Val, N>>,
    part: &mut Part<S, N>,
    worker: u32,
    number: &mut u64,
    gate: &G,
) -> Result<bool, GrowRefusal>
    requires named { S.rules system.now ≡ N.rules }
    ensures too_big { IfErr result (IsTooBig S.Key.cmp N.rules N.limit) }
{
    let mut grew = false;
    for _turn in 0..u64::MAX {
        match part.take(alloc, system, worker)? {
            None => return Ok(grew),
            Some(claim) => {
                let here = *number;
                *number = here.wrapping_add(1);
                if work_out(rt, alloc, system, board, part, claim, worker, here, gate)? {
                    grew = true;
                }
            }
        }
    }
    Err(GrowRefusal::Want)
}

/// Takes another part, where it is at home, hands over what is noted for it, and puts it back.
fn meet<R: Wait, S: Parted, N: Name<S::Key, S::Val>>(
    rt: &R,
    alloc: Global,
    field: &Field<'_, S, N>,
    seat: &mut ShardSeat<Part<S, N>>,
    system: &S,
    part: &mut Part<S, N>,
    n: u32,
    m: u32,
) -> Result<bool, GrowRefusal>
    requires named { S.rules system.now ≡ N.rules }
    requires of { seat.old.of ≡ field.now }
    requires held { seat.old.held ≡ n ∷ [] }
    requires other { (m < 64) × (m ≢ n) }
    ensures seat { seat.new ≡ seat.old }
    ensures too_big { IfErr result (IsTooBig S.Key.cmp N.rules N.limit) }
{
    let Some(mut other) = field.shards.take_shard(seat, m) else {
        return Ok(false);
    };
    let handed = hand_over(rt, alloc, system, field.board, part, n, &mut other, m);
    field.shards.put_shard(seat, m, other);
    handed
}

/// Works a part that the seat holds, and hands over what is noted for the other parts; true where a fact grew.
fn tend<R: Wait, S: Parted, N: Name<S::Key, S::Val>, G: Gate>(
    rt: &R,
    alloc: Global,
    field: &Field<'_, S, N>,
    seat: &mut ShardSeat<Part<S, N>>,
    system: &S,
    part: &mut Part<S, N>,
    n: u32,
    worker: u32,
    number: &mut u64,
    gate: &G,
) -> Result<bool, GrowRefusal>
    requires named { S.rules system.now ≡ N.rules }
    requires of { seat.old.of ≡ field.now }
    requires held { seat.old.held ≡ n ∷ [] }
    ensures seat { seat.new ≡ seat.old }
    ensures too_big { IfErr result (IsTooBig S.Key.cmp N.rules N.limit) }
{
    let mut grew = work_part(rt, alloc, system, field.board, part, worker, number, gate)?;
    for m in 0..PARTS {
        if m != n && part.has_mail(m) {
            if meet(rt, alloc, field, seat, system, part, n, m)? {
                grew = true;
            }
        }
    }
    Ok(grew)
}

/// Takes a part, where it is at home, tends it and puts it back; true where a fact grew.
fn visit<R: Wait, S: Parted, N: Name<S::Key, S::Val>, G: Gate>(
    rt: &R,
    alloc: Global,
    field: &Field<'_, S, N>,
    seat: &mut ShardSeat<Part<S, N>>,
    system: &S,
    n: u32,
    worker: u32,
    number: &mut u64,
    gate: &G,
) -> Result<bool, GrowRefusal>
    requires named { S.rules system.now ≡ N.rules }
    requires of { seat.old.of ≡ field.now }
    requires held { seat.old.held ≡ [] }
    requires part { n < 64 }
    ensures seat { seat.new ≡ seat.old }
    ensures too_big { IfErr result (IsTooBig S.Key.cmp N.rules N.limit) }
{
    let Some(mut part) = field.shards.take_shard(seat, n) else {
        return Ok(false);
    };
    let tended = tend(
        rt, alloc, field, seat, system, &mut part, n, worker, number, gate,
    );
    field.shards.put_shard(seat, n, part);
    tended
}

/// Visits each part once; true where a fact grew.
fn go_round<R: Wait, S: Parted, N: Name<S::Key, S::Val>, G: Gate>(
    rt: &R,
    alloc: Global,
    field: &Field<'_, S, N>,
    seat: &mut ShardSeat<Part<S, N>>,
    system: &S,
    worker: u32,
    number: &mut u64,
    gate: &G,
) -> Result<bool, GrowRefusal>
    requires named { S.rules system.now ≡ N.rules }
    requires of { seat.old.of ≡ field.now }
    requires held { seat.old.held ≡ [] }
    ensures seat { seat.new ≡ seat.old }
    ensures too_big { IfErr result (IsTooBig S.Key.cmp N.rules N.limit) }
{
    let mut grew = false;
    for n in 0..PARTS {
        if visit(rt, alloc, field, seat, system, n, worker, number, gate)? {
            grew = true;
        }
    }
    Ok(grew)
}

/// One worker: it visits the 64 parts in turn. Where a part is at home it takes the part and works its pending keys,
/// puts each new key on the board, and hands pieces and copies to those of the other parts that it can take. It ends
/// once a whole turn let no fact and no copy grow.
///
/// At every return its seat holds no part and has the weight that it came with. Nodes says that the due graph has more
/// counted keys than the named limit. Want stands also for the end of 2^64 - 1 turns.
pub fn labour<R: Wait, S: Parted, N: Name<S::Key, S::Val>, G: Gate>(
    rt: &R,
    alloc: Global,
    field: &Field<'_, S, N>,
    seat: &mut ShardSeat<Part<S, N>>,
    system: &S,
    worker: u32,
    gate: &G,
) -> Result<(), GrowRefusal>
    requires named { S.rules system.now ≡ N.rules }
    requires of { seat.old.of ≡ field.now }
    requires held { seat.old.held ≡ [] }
    ensures seat { seat.new ≡ seat.old }
    ensures nodes { IfErr result (IsTooBig S.Key.cmp N.rules N.limit) }
{
    let mut number = 0;
    for _turn in 0..u64::MAX {
        if !go_round(rt, alloc, field, seat, system, worker, &mut number, gate)? {
            return Ok(());
        }
    }
    Err(GrowRefusal::Want)
}
