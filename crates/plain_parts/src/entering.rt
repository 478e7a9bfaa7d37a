//! What a context enters, and what is known of that.
ghost use Rattle.std.specs.Prelude.{◌≡◌, length};
ghost use Rattle.std.specs.List.Sorted.{IsStrictlyIncreasing};
ghost use Rattle.abs_state.specs.Key.{compare};
ghost use Rattle.abs_state.specs.declared.key.Next.TheVariants.{Into};
ghost use Rattle.flow_system.specs.Facts.{fact_at};
ghost use Rattle.plain_parts.specs.Entered.{IsEnteredAt, IsStanding, IsStandingAt};

use crate::searching::known;
use abs_state::{Key, Next, Place};
use assert_bind::Binding;
use flow_system::Facts;
use graph_view::View;
use transfer_rules::Fact;

/// What is known of all that a context enters.
#[derive(Clone, Copy, Debug, PartialEq, Eq)]
pub enum Standing {
    /// Of something that it enters nothing is known yet.
    Waits,
    /// Something that it enters isn't plain.
    Open,
    /// All that it enters has a bound.
    Bounded,
}

/// The subprogram that a program point of a context enters by a call of it, if it does: the facts have the call, the
/// subprogram is no stub, and the call isn't inside a call cycle.
fn entered_into(
    binding: &Binding,
    view: &View,
    facts: &Facts<Key, Fact>,
    sub: u32,
    place: Place,
    target: u32,
) -> Option<u32>
    requires { place.next ≡ Into target }
    ensures { IsEnteredAt binding.now view.now.callings sub (fact_at compare facts.now) place result }
{
    let call = Key::Call {
        from: place,
        callee: target,
    };
    if facts.get(call).is_none() {
        return None;
    }
    if binding.stub(target).is_some() {
        return None;
    }
    if view.is_cyclic(sub, target) {
        return None;
    }
    Some(target)
}

/// The subprogram that a program point of a context enters, if it does.
pub fn entered(
    binding: &Binding,
    view: &View,
    facts: &Facts<Key, Fact>,
    sub: u32,
    place: Place,
) -> Option<u32>
    ensures { IsEnteredAt binding.now view.now.callings sub (fact_at compare facts.now) place result }
{
    match place.next {
        Next::At(_) => None,
        Next::Into(target) => entered_into(binding, view, facts, sub, place, target),
        Next::Back => None,
    }
}

/// What a table has for what a program point enters.
fn standing_at(
    binding: &Binding,
    view: &View,
    subs: &[u32],
    table: &[Option<Option<u64>>],
    facts: &Facts<Key, Fact>,
    sub: u32,
    place: Place,
) -> Standing
    requires rising { IsStrictlyIncreasing subs.now }
    requires count { length table.now ≡ length subs.now }
    ensures { IsStandingAt binding.now view.now.callings subs.now table.now sub (fact_at compare facts.now) place result }
{
    match entered(binding, view, facts, sub, place) {
        None => Standing::Bounded,
        Some(target) => match known(subs, table, target) {
            None => Standing::Waits,
            Some(None) => Standing::Open,
            Some(Some(_)) => Standing::Bounded,
        },
    }
}

/// What a table has for all that the program points of a context enter.
pub fn standing_of(
    binding: &Binding,
    view: &View,
    subs: &[u32],
    table: &[Option<Option<u64>>],
    facts: &Facts<Key, Fact>,
    sub: u32,
    nodes: &[Place],
) -> Standing
    requires rising { IsStrictlyIncreasing subs.now }
    requires count { length table.now ≡ length subs.now }
    ensures { IsStanding binding.now view.now.callings subs.now table.now sub (fact_at compare facts.now) nodes.now result }
{
    for place in nodes {
        match standing_at(binding, view, subs, table, facts, sub, *place) {
            Standing::Waits => return Standing::Waits,
            Standing::Open => return Standing::Open,
            Standing::Bounded => {}
        }
    }
    Standing::Bounded
}
