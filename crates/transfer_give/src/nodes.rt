//! What a program point gives, of the state there.
ghost use Rattle.std.specs.Prelude.{◌≡◌, ◌<◌, true, ◌++◌, OnOk};
ghost use Rattle.abs_state.specs.State.{is_state_over};
ghost use Rattle.transfer_give.specs.Way.{acts_give, way_gives};
ghost use Rattle.transfer_rules.specs.Give.{act_gives, node_gives};

use crate::Transfers;
use crate::masks::mask_of;
use crate::pieces::{push_effects, push_gap};
use crate::ways::{push_calls_to, push_exits, push_jumps_to, push_onward, push_returns_by};
use abs_state::{AbsState, Key, Place};
use bt_base::Want;
use call_effects::Summary;
use std::alloc::Global;
use transfer_rules::{Act, Fact, Step, Way};

/// How control goes on, of the state before a step and the one behind it.
fn push_way<F: Transfers>(
    f: &F,
    alloc: Global,
    pieces: &mut Vec<(Key, Fact)>,
    p: Place,
    step: Step,
    way: Way,
    callee: Option<Summary>,
    before: &AbsState,
    s: AbsState,
) -> Result<(), Want>
    requires depth { step.depth < 2 }
    requires before { is_state_over (F.thresholds f.now) before.now ≡ true }
    requires over { is_state_over (F.thresholds f.now) s ≡ true }
    ensures { OnOk result (pieces.new.items ≡ pieces.old.items ++ way_gives (F.family f.now) (F.program f.now) p step way callee before.now s) }
{
    match way {
        Way::Onward => push_onward(f, alloc, pieces, p, step.depth, callee, s),
        Way::Forks { first, second } => push_exits(f, alloc, pieces, p, first, second, &s),
        Way::CallsTo(aim) => push_calls_to(f, alloc, pieces, p, aim, before, &s),
        Way::JumpsTo(aim) => push_jumps_to(f, alloc, pieces, p, aim, before, &s),
        Way::ReturnsBy(c) => push_returns_by(pieces, p, c, before, s),
    }
}

/// A step that goes on to where control was to go: the state before it isn't kept.
fn push_plain<F: Transfers>(
    f: &F,
    alloc: Global,
    pieces: &mut Vec<(Key, Fact)>,
    p: Place,
    step: Step,
    callee: Option<Summary>,
    s: AbsState,
) -> Result<(), Want>
    requires depth { step.depth < 2 }
    requires over { is_state_over (F.thresholds f.now) s ≡ true }
    ensures { OnOk result (pieces.new.items ≡ pieces.old.items ++ acts_give (F.family f.now) (F.program f.now) p step Way.Onward callee s) }
{
    match f.step(alloc, step, s)? {
        None => Ok(()),
        Some(after) => push_onward(f, alloc, pieces, p, step.depth, callee, after),
    }
}

/// A step and the way behind it.
fn push_transfer<F: Transfers>(
    f: &F,
    alloc: Global,
    pieces: &mut Vec<(Key, Fact)>,
    p: Place,
    step: Step,
    way: Way,
    callee: Option<Summary>,
    s: &AbsState,
) -> Result<(), Want>
    requires depth { step.depth < 2 }
    requires over { is_state_over (F.thresholds f.now) s.now ≡ true }
    ensures { OnOk result (pieces.new.items ≡ pieces.old.items ++ acts_give (F.family f.now) (F.program f.now) p step way callee s.now) }
{
    match f.step(alloc, step, s.copy(alloc)?)? {
        None => Ok(()),
        Some(after) => push_way(f, alloc, pieces, p, step, way, callee, s, after),
    }
}

/// What a step and the way behind it give: whatever comes of the step, its cells are written.
fn push_acts<F: Transfers>(
    f: &F,
    alloc: Global,
    pieces: &mut Vec<(Key, Fact)>,
    p: Place,
    step: Step,
    way: Way,
    callee: Option<Summary>,
    s: AbsState,
) -> Result<(), Want>
    requires depth { step.depth < 2 }
    requires over { is_state_over (F.thresholds f.now) s ≡ true }
    ensures { OnOk result (pieces.new.items ≡ pieces.old.items ++ act_gives (F.family f.now) (F.program f.now) p (Act.Acts step way) callee s) }
{
    push_effects(pieces, p.sub, false, false, mask_of(step))?;
    match way {
        Way::Onward => push_plain(f, alloc, pieces, p, step, callee, s),
        Way::Forks { .. } => push_transfer(f, alloc, pieces, p, step, way, callee, &s),
        Way::CallsTo(_) => push_transfer(f, alloc, pieces, p, step, way, callee, &s),
        Way::JumpsTo(_) => push_transfer(f, alloc, pieces, p, step, way, callee, &s),
        Way::ReturnsBy(_) => push_transfer(f, alloc, pieces, p, step, way, callee, &s),
    }
}

/// What an act gives, of a state that the assertions allow.
fn push_act<F: Transfers>(
    f: &F,
    alloc: Global,
    pieces: &mut Vec<(Key, Fact)>,
    p: Place,
    callee: Option<Summary>,
    s: AbsState,
) -> Result<(), Want>
    requires depth { p.depth < 2 }
    requires over { is_state_over (F.thresholds f.now) s ≡ true }
    ensures { OnOk result (pieces.new.items ≡ pieces.old.items ++ act_gives (F.family f.now) (F.program f.now) p ((F.program f.now).act p) callee s) }
{
    match f.act(p) {
        Act::Dead => Ok(()),
        Act::Open(kind) => push_gap(pieces, p, kind),
        Act::Acts { step, way } => push_acts(f, alloc, pieces, p, step, way, callee, s),
    }
}

/// What a place gives, of the state there and of what its callee may do.
pub fn push_node<F: Transfers>(
    f: &F,
    alloc: Global,
    pieces: &mut Vec<(Key, Fact)>,
    p: Place,
    callee: Option<Summary>,
    s: &AbsState,
) -> Result<(), Want>
    requires depth { p.depth < 2 }
    requires over { is_state_over (F.thresholds f.now) s.now ≡ true }
    ensures { OnOk result (pieces.new.items ≡ pieces.old.items ++ node_gives (F.family f.now) (F.program f.now) p callee s.now) }
{
    match f.narrow(alloc, p, s)? {
        None => Ok(()),
        Some(left) => push_act(f, alloc, pieces, p, callee, left),
    }
}
