//! The first line of an asserted loop that no loop matches.
ghost use Rattle.std.specs.Prelude.{◌≡◌, ℕ, List, IfOk};
ghost use Rattle.std.specs.Map.{keys_of};
ghost use Rattle.abs_state.specs.Key.{compare};
ghost use Rattle.context_bounds.specs.Setting.{setting_of};
ghost use Rattle.flow_system.specs.Facts.{fact_at};
ghost use Rattle.flow_system.specs.State.{IsDueGraph};
ghost use Rattle.graph_view.specs.View.{AreViewed, by_kind};
ghost use Rattle.loop_lines.specs.Answer.{IsFirstUnmatchedOrNone};
ghost use Rattle.transfer_fns.specs.Setting.{rules_over};

use crate::addresses::matched_addresses;
use crate::missing::first_missing;
use abs_state::Key;
use bt_base::Want;
use flow_system::Facts;
use graph_view::View;
use std::alloc::Global;
use transfer_fns::SparcSystem;
use transfer_rules::Fact;

/// The least line of an asserted loop that no loop matches, or nothing where all are matched: at the head of a loop of a
/// subprogram, or at any program point of one whose graph is entered at two program points of a cycle.
///
/// The facts are those of all runs: the due graph of the system, and the view is of their keys. The work grows as the
/// number of program points and steps, with those of loops once for each loop that they are in, and of lines, times
/// their logarithms.
pub fn unmatched(
    alloc: Global,
    system: &SparcSystem,
    _whole: &Facts<Key, Fact>,
    view: &View,
) -> Result<Option<u32>, Want>
    requires due { IsDueGraph (rules_over system.now.thresholds system.now.image system.now.binding system.now.eight) (fact_at compare _whole.now) }
    requires keys { AreViewed (keys_of _whole.now) }
    requires view { view.now ≡ by_kind (keys_of _whole.now) }
    ensures { (costs : List ℕ) → IfOk result (IsFirstUnmatchedOrNone (setting_of system.now costs _whole.now)) }
{
    let addresses = matched_addresses(alloc, view)?;
    Ok(first_missing(system.binding().loops(), &addresses))
}
