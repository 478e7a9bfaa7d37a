//! The plain contexts of subprograms.
ghost use Rattle.std.specs.Prelude.{◌≡◌, ◌<◌, ℕ, List, Contains, IfOk, length, slice_index_or};
ghost use Rattle.std.specs.List.Sorted.{IsStrictlyIncreasing};
ghost use Rattle.std.specs.Map.{keys_of};
ghost use Rattle.context_bounds.specs.Setting.{setting_of};
ghost use Rattle.context_inside.specs.Laws.{AreDue};
ghost use Rattle.plain_bounds.specs.Contexts.{AreChosen, ArePlainContexts};
ghost use Rattle.plain_parts.specs.Joined.{HasArguments, entry_at};

use abs_state::{Args, Key};
use bt_base::Want;
use context_bounds::own_rows;
use flow_system::Facts;
use plain_parts::{chosen, joins, listed, rising_roots};
use std::alloc::Global;
use transfer_fns::SparcSystem;
use transfer_rules::Fact;

/// Of each subprogram that is a root, or is called and no stub, its plain context, as far as it is known before any bound is.
#[derive(Debug, Drop)]
pub struct Contexts {
    /// The entry addresses of these subprograms, rising.
    pub subs: Vec<u32>,
    /// The arguments of the plain context of each, 13 in all.
    pub arguments: Vec<Args>,
    /// The program points, steps and calls that the whole program has of each.
    pub keys: Vec<Vec<Key>>,
}

/// The arguments of the plain contexts of listed subprograms: anything for a root, and else what is joined.
fn arguments_of_all(
    alloc: Global,
    roots: &[u32],
    subs: &[u32],
    joined: &[Option<Fact>],
) -> Result<Vec<Args>, Want>
    requires rising { IsStrictlyIncreasing roots.now }
    requires count { length joined.now ≡ length subs.now }
    requires given { (n : ℕ) → n < length subs.now → (Contains roots.now (slice_index_or subs.now n 0) → ⊥) → HasArguments (entry_at joined.now n) }
    ensures { IfOk result (λ list. AreChosen roots.now subs.now joined.now list.items) }
{
    let mut list = Vec::with_capacity(alloc, subs.len())?;
    for number in 0..subs.len() {
        list.push(chosen(alloc, roots, subs[number], &joined[number])?)?;
    }
    Ok(list)
}

/// The plain contexts of the subprograms that are roots, or that some key calls and that are no stubs.
///
/// The work is that of so many searches as there are keys.
pub fn contexts_of(
    alloc: Global,
    system: &SparcSystem,
    whole: &Facts<Key, Fact>,
    keys: &[Key],
) -> Result<Contexts, Want>
    requires due { (costs : List ℕ) → AreDue (setting_of system.now costs whole.now) }
    requires keys { keys.now ≡ keys_of whole.now }
    ensures { IfOk result (λ contexts. (costs : List ℕ) → ArePlainContexts (setting_of system.now costs whole.now) contexts) }
{
    let subs = listed(alloc, system.binding(), keys)?;
    let roots = rising_roots(alloc, system.binding())?;
    let joined = joins(alloc, system.thresholds(), whole, keys, &subs)?;
    let arguments = arguments_of_all(alloc, &roots, &subs, &joined)?;
    let keys = own_rows(alloc, &subs, keys)?;
    Ok(Contexts {
        subs,
        arguments,
        keys,
    })
}
