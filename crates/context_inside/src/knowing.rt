//! The facts of a context.
ghost use Rattle.std.specs.Prelude.{◌≡◌, ℕ, All, IfOk, List, OnOk, length};
ghost use Rattle.std.specs.Map.{keys_of};
ghost use Rattle.abs_state.specs.Key.{compare};
ghost use Rattle.abs_state.specs.declared.key.Key.{Key as AnyKey};
ghost use Rattle.context_bounds.specs.Own.{own_keys};
ghost use Rattle.context_bounds.specs.Setting.{setting_of};
ghost use Rattle.context_outcomes.specs.Inside.{AreFacts, starts_with};
ghost use Rattle.flow_core.specs.Staged.{CopiesFact, IsCopy};
ghost use Rattle.flow_system.specs.Facts.{KeysRise, fact_at};
ghost use Rattle.flow_system.specs.State.{IsDueGraph};
ghost use Rattle.local_facts.specs.Restricted.{IsLeastLocal, IsRestriction};
ghost use Rattle.transfer_fns.specs.Setting.{rules_over};
ghost use Rattle.transfer_rules.specs.Closed.{HasState};
ghost use Rattle.transfer_rules.specs.Give.{entered_with, entry_of};
ghost use Rattle.value_lattice.specs.Value.{IsValue};

use abs_state::{Key, Next, Place};
use bt_base::Want;
use context_bounds::{entered_with, summaries_of, thresholds_with};
use flow_core::GrowRefusal;
use flow_system::{Facts, System};
use local_facts::least_facts;
use std::alloc::Global;
use transfer_fns::SparcSystem;
use transfer_rules::Fact;
use value_lattice::{Thresholds, Value};

/// The program point at which a subprogram is entered.
pub fn entry_of(sub: u32) -> Place
    ensures { result ≡ entry_of sub }
{
    Place {
        sub,
        pc: sub,
        next: Next::At(sub.wrapping_add(4)),
        depth: 0,
    }
}

/// Where a context begins: at the entry of its subprogram, with its arguments.
fn starts_with(alloc: Global, sub: u32, args: &[Value]) -> Result<Vec<(Key, Fact)>, Want>
    requires count { length args.now ≡ 13 }
    requires values { All IsValue args.now }
    ensures { IfOk result (λ starts. starts.items ≡ starts_with sub args.now) }
{
    let state = entered_with(alloc, args)?;
    let mut starts = Vec::new(alloc);
    starts.push((Key::Node(entry_of(sub)), Fact::State(state)))?;
    Ok(starts)
}

/// Copies the fact at a key, if there is one.
fn copy_fact(
    alloc: Global,
    system: &SparcSystem,
    facts: &Facts<Key, Fact>,
    key: Key,
    copies: &mut Facts<Key, Fact>,
) -> Result<(), Want>
    ensures { OnOk result (CopiesFact compare facts.now key copies.old copies.new) }
{
    match facts.get(key) {
        None => Ok(()),
        Some(fact) => {
            let copied = system.copy(alloc, fact)?;
            copies.put(key, copied)?;
            Ok(())
        }
    }
}

/// Copies of the facts at these keys.
fn copies_of(
    alloc: Global,
    system: &SparcSystem,
    facts: &Facts<Key, Fact>,
    keys: &[Key],
) -> Result<Facts<Key, Fact>, Want>
    ensures { IfOk result (IsCopy compare facts.now keys.now) }
{
    let mut copies = Facts::empty(alloc);
    for key in keys {
        copy_fact(alloc, system, facts, *key, &mut copies)?;
    }
    Ok(copies)
}

/// The same facts.
fn copy_of(
    alloc: Global,
    system: &SparcSystem,
    facts: &Facts<Key, Fact>,
) -> Result<Facts<Key, Fact>, Want>
    ensures { IfOk result (λ copies. (k : AnyKey) → fact_at compare copies k ≡ fact_at compare facts.now k) }
{
    let keys = facts.keys(alloc)?;
    copies_of(alloc, system, facts, &keys)
}

/// The least map over the kept keys that has the start pieces and what its keys give to kept keys over these thresholds, with
/// the fixed facts beside it. There is room for all kept keys.
fn least_of(
    alloc: Global,
    system: &SparcSystem,
    thresholds: Thresholds,
    starts: Vec<(Key, Fact)>,
    keep: Vec<Key>,
    fixed: Facts<Key, Fact>,
) -> Result<Facts<Key, Fact>, Want>
    requires { IsRestriction compare (rules_over thresholds system.now.image system.now.binding system.now.eight) starts.items keep.items fixed }
    ensures { IfOk result (λ facts. IsLeastLocal compare (rules_over thresholds system.now.image system.now.binding system.now.eight) starts.items keep.items fixed (fact_at compare facts)) }
{
    let using = system.using(thresholds);
    let limit = keep.len() as u64;
    match least_facts(alloc, &using, starts, keep, fixed, limit) {
        Ok(closed) => copy_of(alloc, system, closed.facts()),
        Err(GrowRefusal::Want) => Err(Want),
        Err(GrowRefusal::Nodes { .. }) => unreachable!(),
    }
}

/// The facts of a subprogram that is entered with these arguments, over the thresholds that come with them: the least map over
/// its keys, with what the whole program says of the subprograms that it calls.
pub fn facts_of(
    alloc: Global,
    system: &SparcSystem,
    whole: &Facts<Key, Fact>,
    keep: Vec<Key>,
    sub: u32,
    args: &[Value],
) -> Result<Facts<Key, Fact>, Want>
    requires count { length args.now ≡ 13 }
    requires due { IsDueGraph (rules_over system.now.thresholds system.now.image system.now.binding system.now.eight) (fact_at compare whole.now) }
    requires rise { KeysRise compare whole.now }
    requires keep { keep.items ≡ own_keys (keys_of whole.now) sub }
    requires below { HasState (fact_at compare whole.now) (entry_of sub) (entered_with args.now) }
    ensures { IfOk result (λ facts. (costs : List ℕ) → AreFacts (setting_of system.now costs whole.now) sub args.now (fact_at compare facts)) }
{
    let program = system.thresholds();
    program.are_thresholds();
    let fixed = summaries_of(alloc, system, whole, &keep)?;
    let starts = starts_with(alloc, sub, args)?;
    let thresholds = thresholds_with(alloc, program, args)?;
    least_of(alloc, system, thresholds, starts, keep, fixed)
}
