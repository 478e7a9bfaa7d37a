//! Calls into contexts without a bound.
ghost use Rattle.std.specs.Prelude.{◌≡◌, ◌↔◌, OnOk, length, true};
ghost use Rattle.abs_state.specs.Key.{compare};
ghost use Rattle.context_answers.specs.Adding.{Adds, IsOpenAmong, IsOpenAt, IsOpenInto, IsOpenTo};
ghost use Rattle.flow_system.specs.Facts.{fact_at};

use abs_state::{Key, Next, Place};
use assert_bind::Binding;
use bt_base::Want;
use flow_system::Facts;
use graph_view::{Calling, View, address_of};
use transfer_rules::Fact;
use wcet_report::Reason;

/// Whether a call of a subprogram at a program point is followed into a context without a bound: the facts have it, it isn't
/// one inside a call cycle, and what is called isn't a stub.
fn is_open(
    binding: &Binding,
    facts: &Facts<Key, Fact>,
    view: &View,
    sub: u32,
    p: Place,
    target: u32,
    bound: Option<u64>,
) -> bool
    ensures { (result ≡ true) ↔ IsOpenInto binding.now view.now.callings (fact_at compare facts.now) sub p target bound }
{
    let there = facts
        .get(Key::Call {
            from: p,
            callee: target,
        })
        .is_some();
    let plain = binding.stub(target).is_none();
    let cyclic = view.is_cyclic(sub, target);
    there && plain && !cyclic && bound.is_none()
}

/// Appends the reason of a call of a subprogram that is followed into a context without a bound.
fn push_call(
    reasons: &mut Vec<Reason>,
    binding: &Binding,
    facts: &Facts<Key, Fact>,
    view: &View,
    sub: u32,
    p: Place,
    target: u32,
    bound: Option<u64>,
) -> Result<(), Want>
    ensures { OnOk result (Adds (IsOpenTo binding.now view.now.callings (fact_at compare facts.now) sub p target bound) reasons.old.items reasons.new.items) }
{
    if is_open(binding, facts, view, sub, p, target, bound) {
        let call = address_of(&Calling {
            from: p,
            callee: target,
        });
        reasons.push(Reason::Callee {
            call,
            callee: target,
        })?;
    }
    Ok(())
}

/// Appends the reason of a program point that calls into a context without a bound.
fn push_calls_at(
    reasons: &mut Vec<Reason>,
    binding: &Binding,
    facts: &Facts<Key, Fact>,
    view: &View,
    sub: u32,
    p: Place,
    bound: Option<u64>,
) -> Result<(), Want>
    ensures { OnOk result (Adds (IsOpenAt binding.now view.now.callings (fact_at compare facts.now) sub p bound) reasons.old.items reasons.new.items) }
{
    match p.next {
        Next::At(_) => Ok(()),
        Next::Into(target) => push_call(reasons, binding, facts, view, sub, p, target, bound),
        Next::Back => Ok(()),
    }
}

/// Appends the reasons of the calls of a context into contexts without a bound. `bounds` has for each of its program points
/// the bound of the context to which its call leads, if it has one.
pub fn push_calls(
    reasons: &mut Vec<Reason>,
    binding: &Binding,
    facts: &Facts<Key, Fact>,
    view: &View,
    sub: u32,
    nodes: &[Place],
    bounds: &[Option<u64>],
) -> Result<(), Want>
    requires { length bounds.now ≡ length nodes.now }
    ensures { OnOk result (Adds (IsOpenAmong binding.now view.now.callings (fact_at compare facts.now) sub nodes.now bounds.now (length nodes.now))
        reasons.old.items reasons.new.items) }
{
    for (i, p) in nodes.iter().enumerate() {
        push_calls_at(reasons, binding, facts, view, sub, *p, bounds[i])?;
    }
    Ok(())
}
