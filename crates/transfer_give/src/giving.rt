//! What a key gives over the facts, and what it looks at.
ghost use Rattle.std.specs.Prelude.{◌≡◌, IfOk};
ghost use Rattle.abs_state.specs.Key.{compare};
ghost use Rattle.flow_system.specs.Facts.{fact_at};
ghost use Rattle.flow_system.specs.State.{AllFit};
ghost use Rattle.transfer_rules.specs.Give.{callee_of, gives, is_counted, reads};
ghost use Rattle.std.specs.Option.{option_copied};
ghost use Rattle.transfer_rules.specs.Fact.{effects_in, state_in};
ghost use Rattle.transfer_rules.specs.Lawful.{rules_of};

use crate::Transfers;
use crate::nodes::push_node;
use abs_state::{AbsState, Key, Next, Place};
use bt_base::Want;
use call_effects::Summary;
use flow_system::Facts;
use std::alloc::Global;
use transfer_rules::Fact;

/// What the subprogram at an entry may do, where anything is known of it.
fn effects_at(facts: &Facts<Key, Fact>, sub: u32) -> Option<Summary>
    ensures { result ≡ effects_in (fact_at compare facts.now (Key.Summary sub)) }
{
    match facts.get(Key::Summary { sub }) {
        Some(Fact::Sum(there)) => Some(*there),
        Some(Fact::State(_)) => None,
        Some(Fact::Args(_)) => None,
        Some(Fact::Mark) => None,
        None => None,
    }
}

/// What the subprogram that a place calls may do.
fn callee_of(facts: &Facts<Key, Fact>, next: Next) -> Option<Summary>
    ensures { result ≡ callee_of next (fact_at compare facts.now) }
{
    match next {
        Next::At(_) => None,
        Next::Into(t) => effects_at(facts, t),
        Next::Back => None,
    }
}

/// The state at a place.
fn state_at(facts: &Facts<Key, Fact>, p: Place) -> Option<&AbsState>
    ensures { option_copied result ≡ state_in (fact_at compare facts.now (Key.Node p)) }
{
    match facts.get(Key::Node(p)) {
        Some(Fact::State(s)) => Some(s),
        Some(Fact::Args(_)) => None,
        Some(Fact::Sum(_)) => None,
        Some(Fact::Mark) => None,
        None => None,
    }
}

/// What a key gives over the facts.
pub fn give<F: Transfers>(
    f: &F,
    alloc: Global,
    k: Key,
    facts: &Facts<Key, Fact>,
) -> Result<Vec<(Key, Fact)>, Want>
    requires { AllFit (rules_of (F.thresholds f.now) (F.family f.now) (F.program f.now)) (fact_at compare facts.now) }
    ensures { IfOk result (λ pieces. pieces.items ≡ gives (F.family f.now) (F.program f.now) k (fact_at compare facts.now)) }
{
    let mut pieces = Vec::new(alloc);
    if let Key::Node(p) = k {
        if let Some(s) = state_at(facts, p) {
            push_node(f, alloc, &mut pieces, p, callee_of(facts, p.next), s)?;
        }
    }
    Ok(pieces)
}

/// The keys whose facts a key looks at, itself among them.
pub fn reads(alloc: Global, k: Key) -> Result<Vec<Key>, Want>
    ensures { IfOk result (λ keys. keys.items ≡ reads k) }
{
    let mut keys = Vec::with_capacity(alloc, 2)?;
    keys.push(k)?;
    if let Key::Node(p) = k {
        if let Next::Into(sub) = p.next {
            keys.push(Key::Summary { sub })?;
        }
    }
    Ok(keys)
}

/// Whether a key counts: program points alone do.
pub fn counted(k: Key) -> bool
    ensures { result ≡ is_counted k }
{
    matches!(k, Key::Node(_))
}
