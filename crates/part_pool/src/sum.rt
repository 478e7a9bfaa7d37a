ghost use Rattle.std.specs.Prelude.{◌≡◌, [], IfOk, IfErr, OnOk};
ghost use Rattle.flow_core.specs.Core.{IsGood, IsPart};
ghost use Rattle.flow_core.specs.Refusal.{IsTooBig};
ghost use Rattle.flow_system.specs.Facts.{fact_at};
ghost use Rattle.flow_system.specs.State.{AllFit};
ghost use Rattle.part_pool.specs.Sum.{AddsPart, AllPending, IsSum};

use crate::field::Field;
use crate::part::Part;
use crate::pieces::copy_pieces;
use flow_core::{Core, GrowRefusal};
use flow_system::{Name, Parted};
use shard_slots::ShardSeat;
use std::alloc::Global;

/// The sum of no parts: a core of the start pieces, all pending.
fn sum_of_none<S: Parted>(alloc: Global, system: &S, limit: u64) -> Result<Core<S>, GrowRefusal>
    ensures sum { IfOk result (λ core. IsSum S.Key.cmp (S.rules system.now) [] (fact_at S.Key.cmp core.facts)) }
    ensures part { IfOk result (IsPart S.Key.cmp (S.rules system.now)) }
    ensures pending { IfOk result (AllPending S.Key.cmp) }
    ensures none_out { IfOk result (λ core. core.out ≡ []) }
    ensures limit { IfOk result (λ core. core.limit ≡ limit) }
    ensures nodes { IfErr result (IsTooBig S.Key.cmp (S.rules system.now) limit) }
{
    Core::new(alloc, system, limit)
}

/// Joins a part's facts to a core.
fn add_part<S: Parted, N: Name<S::Key, S::Val>>(
    alloc: Global,
    system: &S,
    part: &Part<S, N>,
    core: &mut Core<S>,
) -> Result<(), GrowRefusal>
    requires named { S.rules system.now ≡ N.rules }
    requires part { IsPart S.Key.cmp N.rules core.old }
    requires pending { AllPending S.Key.cmp core.old }
    ensures fit { OnOk result (AllFit N.rules (fact_at S.Key.cmp part.now.core.facts)) }
    ensures added { OnOk result (AddsPart S.Key.cmp N.rules part.now.core.facts core.old.facts core.new.facts) }
    ensures part { IsPart S.Key.cmp N.rules core.new }
    ensures pending { OnOk result (AllPending S.Key.cmp core.new) }
    ensures out { OnOk result (core.new.out ≡ core.old.out) }
    ensures limit { core.new.limit ≡ core.old.limit }
    ensures too_big { IfErr result (IsTooBig S.Key.cmp N.rules core.old.limit) }
{
    let keys = part.facts().keys(alloc)?;
    let pieces = copy_pieces(alloc, system, part.facts(), &keys)?;
    core.join(alloc, system, &pieces)?;
    Ok(())
}

/// The sum of parts: a core with the least facts that contain the start pieces and those of each part, its copies too,
/// all pending.
///
/// A part's copy of another part's fact may be greater than that fact, where it wasn't handed over; so no part's facts
/// are left out. Nodes says that the due graph has more counted keys than the named limit.
pub fn sum_of<S: Parted, N: Name<S::Key, S::Val>>(
    alloc: Global,
    system: &S,
    parts: &[Part<S, N>],
    limit: u64,
) -> Result<Core<S>, GrowRefusal>
    requires named { S.rules system.now ≡ N.rules }
    requires limit { limit ≡ N.limit }
    ensures sum { IfOk result (λ core. IsSum S.Key.cmp N.rules parts.now (fact_at S.Key.cmp core.facts)) }
    ensures good { IfOk result (IsGood S.Key.cmp N.rules) }
    ensures pending { IfOk result (AllPending S.Key.cmp) }
    ensures none_out { IfOk result (λ core. core.out ≡ []) }
    ensures limit { IfOk result (λ core. core.limit ≡ N.limit) }
    ensures nodes { IfErr result (IsTooBig S.Key.cmp N.rules N.limit) }
{
    let mut core = sum_of_none(alloc, system, limit)?;
    for part in parts {
        add_part(alloc, system, part, &mut core)?;
    }
    Ok(core)
}

/// Puts the parts together again, once no worker shares them: a core with the start pieces and all that the parts have,
/// all pending. A refusal drops the parts.
///
/// Nodes says that the due graph has more counted keys than the named limit.
pub fn gather<S: Parted, N: Name<S::Key, S::Val>>(
    alloc: Global,
    field: Field<'_, S, N>,
    seat: ShardSeat<Part<S, N>>,
    system: &S,
) -> Result<Core<S>, GrowRefusal>
    requires named { S.rules system.now ≡ N.rules }
    requires of { seat.of ≡ field }
    requires weight { seat.weight ≡ 128 }
    requires held { seat.held ≡ [] }
    ensures good { IfOk result (IsGood S.Key.cmp N.rules) }
    ensures pending { IfOk result (AllPending S.Key.cmp) }
    ensures none_out { IfOk result (λ core. core.out ≡ []) }
    ensures limit { IfOk result (λ core. core.limit ≡ N.limit) }
    ensures nodes { IfErr result (IsTooBig S.Key.cmp N.rules N.limit) }
{
    let limit = field.limit;
    let parts = field.into_shards().close(seat);
    sum_of(alloc, system, &parts, limit)
}
