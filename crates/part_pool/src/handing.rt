ghost use Rattle.std.specs.Prelude.{◌≡◌, IfErr};
ghost use Rattle.flow_core.specs.Refusal.{IsTooBig};

use crate::field::DueKeys;
use crate::part::Part;
use crate::pieces::copy_pieces;
use edge_publish::Board;
use flow_core::GrowRefusal;
use flow_system::{Name, Parted};
use std::alloc::Global;
use std::sync::Wait;

/// Joins the facts that one part has at some keys to another, and tells whether a fact grew.
fn carry<R: Wait, S: Parted, N: Name<S::Key, S::Val>>(
    rt: &R,
    alloc: Global,
    system: &S,
    board: &Board<S::Key, DueKeys<S::Val, N>>,
    from: &Part<S, N>,
    to: &mut Part<S, N>,
    keys: &[S::Key],
) -> Result<bool, GrowRefusal>
    requires named { S.rules system.now ≡ N.rules }
    ensures too_big { IfErr result (IsTooBig S.Key.cmp N.rules N.limit) }
{
    let pieces = copy_pieces(alloc, system, from.facts(), keys)?;
    let grown = to.receive(rt, alloc, system, board, &pieces)?;
    Ok(grown > 0)
}

/// Hands another part all that is noted for it: the facts that it is to be told, and, where its own facts are asked
/// for, that they are read; and takes these facts, as they now are. It tells whether a fact grew in either part.
pub fn hand_over<R: Wait, S: Parted, N: Name<S::Key, S::Val>>(
    rt: &R,
    alloc: Global,
    system: &S,
    board: &Board<S::Key, DueKeys<S::Val, N>>,
    part: &mut Part<S, N>,
    number: u32,
    other: &mut Part<S, N>,
    other_number: u32,
) -> Result<bool, GrowRefusal>
    requires named { S.rules system.now ≡ N.rules }
    ensures too_big { IfErr result (IsTooBig S.Key.cmp N.rules N.limit) }
{
    let news = part.take_news(alloc, other_number);
    let grew_there = carry(rt, alloc, system, board, part, other, &news)?;
    let asks = part.take_asks(alloc, other_number);
    other.add_readers(number, &asks)?;
    let grew_here = carry(rt, alloc, system, board, other, part, &asks)?;
    Ok(grew_there || grew_here)
}
