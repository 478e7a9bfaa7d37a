ghost use Rattle.std.specs.Prelude.{◌≡◌, IfOk, length};
ghost use Rattle.wcet_report.specs.Order.{known_rank as known_rank_so};
ghost use Rattle.wcet_report.specs.Ranking.{IsRankOf, AreRanks, OrdersBy};

use crate::context::Context;
use crate::contexts::put_context;
use crate::outcome::Outcome;
use bt_base::Want;
use std::alloc::Global;

/// Where an outcome stands in a report.
#[derive(Debug, Drop, PartialEq, Eq, PartialOrd, Ord)]
pub(crate) struct Rank {
    /// The entry of its subprogram.
    pub(crate) sub: u32,
    /// 0 for the plain context, which comes first.
    pub(crate) known: u8,
    /// The text of its context.
    pub(crate) text: Vec<u8>,
    /// Its place in the list.
    pub(crate) index: usize,
}

/// The rank of a kind of context.
fn known_rank(context: &Context) -> u8
    ensures { result ≡ known_rank_so context.now }
{
    match context {
        Context::Plain => 0,
        Context::With(_) => 1,
    }
}

/// Where the outcome at an index stands.
fn rank_of(alloc: Global, outcome: &Outcome, index: usize) -> Result<Rank, Want>
    ensures { IfOk result (λ rank. IsRankOf outcome.now index rank) }
{
    let mut text = Vec::new(alloc);
    put_context(alloc, &mut text, &outcome.context)?;
    Ok(Rank {
        sub: outcome.sub,
        known: known_rank(&outcome.context),
        text,
        index,
    })
}

/// Where each outcome stands.
fn ranks_of(alloc: Global, list: &[Outcome]) -> Result<Vec<Rank>, Want>
    ensures { IfOk result (λ ranks. AreRanks list.now (length list.now) ranks.items) }
{
    let mut ranks = Vec::with_capacity(alloc, list.len())?;
    for index in 0..list.len() {
        let rank = rank_of(alloc, &list[index], index)?;
        ranks.push(rank)?;
    }
    Ok(ranks)
}

/// The outcomes in the order of a report.
pub(crate) fn in_order(alloc: Global, list: &[Outcome]) -> Result<Vec<Rank>, Want>
    ensures { IfOk result (λ ranks. OrdersBy list.now ranks.items) }
{
    let mut ranks = ranks_of(alloc, list)?;
    ranks.sort_unstable();
    Ok(ranks)
}
