ghost use Rattle.std.specs.Prelude.{◌≡◌, length, vec_len, IfOk};
ghost use Rattle.path_bound.specs.Places.{AreBounds};
ghost use Rattle.path_bound.specs.Surveyed.{AreFit, IsSurveyed};

use crate::choosing::Label;
use crate::long_walk::Turn;
use crate::passing::{no_labels, no_laps};
use crate::placing::{all_nodes, places_of};
use crate::ranking::{Ranking, new_ranking, ranked};
use crate::stepping::{Step, steps_of};
use crate::turning::{empty_turns, take_turns};
use crate::weights::Costs;
use bt_base::{Graph, Want};
use loop_nest::Loop;
use std::alloc::Global;

/// What is known of a graph before its longest walk is looked for.
///
/// The places of the loops of its heads, its nodes in an order in which each comes after those to which its edges lead but
/// for edges back, the steps from each node, what the passes of each head after the first cost, and the turns of its loops.
/// `ranking` and `labels` are for further passes.
#[derive(Debug, Drop)]
pub(crate) struct Survey {
    pub places: Vec<Option<usize>>,
    pub order: Vec<u32>,
    pub steps: Vec<Vec<Step>>,
    pub ranking: Ranking,
    pub laps: Vec<u64>,
    pub labels: Vec<Option<Label>>,
    pub turns: Vec<Turn>,
}

/// What is known of a graph whose turns aren't taken yet.
fn first_survey(
    alloc: Global,
    graph: &Graph,
    loops: &[Loop],
    bounds: &[u64],
    costs: &Costs,
) -> Result<Survey, Want>
    requires fit { AreFit graph.now loops.now bounds.now costs.now }
    requires costs { vec_len costs.now.node ≡ length graph.now }
    ensures { IfOk result (IsSurveyed graph.now loops.now bounds.now costs.now 0) }
{
    let places = places_of(alloc, graph.count(), loops)?;
    let all = all_nodes(alloc, graph)?;
    let mut ranking = new_ranking(alloc, graph.count())?;
    let order = ranked(alloc, graph, loops, &places, &mut ranking, &all)?;
    let steps = steps_of(alloc, graph, costs)?;
    let laps = no_laps(alloc, graph.count())?;
    let labels = no_labels(alloc, graph.count())?;
    let turns = empty_turns(alloc, loops)?;
    Ok(Survey {
        places,
        order,
        steps,
        ranking,
        laps,
        labels,
        turns,
    })
}

/// What is known of a graph whose turns are taken.
pub(crate) fn surveyed(
    alloc: Global,
    graph: &Graph,
    loops: &[Loop],
    bounds: &[u64],
    costs: &Costs,
) -> Result<Survey, Want>
    requires fit { AreFit graph.now loops.now bounds.now costs.now }
    requires bounds { AreBounds loops.now bounds.now }
    requires costs { vec_len costs.now.node ≡ length graph.now }
    ensures { IfOk result (λ survey. IsSurveyed graph.now loops.now bounds.now costs.now (vec_len survey.order) survey) }
{
    let mut survey = first_survey(alloc, graph, loops, bounds, costs)?;
    take_turns(
        alloc,
        graph,
        loops,
        &survey.places,
        bounds,
        costs,
        &survey.steps,
        &survey.order,
        &mut survey.ranking,
        &mut survey.laps,
        &mut survey.labels,
        &mut survey.turns,
    )?;
    Ok(survey)
}
