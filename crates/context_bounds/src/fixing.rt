//! What is said of the subprograms that a context calls.
ghost use Rattle.std.specs.Prelude.{◌≡◌, ◌++◌, ◌∷◌, [], List, IfOk, OnOk};
ghost use Rattle.abs_state.specs.declared.key.Key.{Key as AnyKey};
ghost use Rattle.context_bounds.specs.Copies.{AreCopies, CopiesSummary, called_by, called_next};

use abs_state::{Key, Next};
use bt_base::Want;
use flow_system::{Facts, System};
use std::alloc::Global;
use transfer_fns::SparcSystem;
use transfer_rules::Fact;

/// The subprogram that comes next.
fn called_next(next: Next) -> Option<u32>
    ensures { result ≡ called_next next }
{
    match next {
        Next::At(_) => None,
        Next::Into(t) => Some(t),
        Next::Back => None,
    }
}

/// The subprogram that a program point calls.
fn called_by(key: Key) -> Option<u32>
    ensures { result ≡ called_by key }
{
    match key {
        Key::Node(p) => called_next(p.next),
        Key::Edge { .. } => None,
        Key::Call { .. } => None,
        Key::Summary { .. } => None,
        Key::Gap { .. } => None,
    }
}

/// Copies what the facts say of a subprogram, if anything.
fn copy_summary(
    alloc: Global,
    system: &SparcSystem,
    whole: &Facts<Key, Fact>,
    sub: u32,
    fixed: &mut Facts<Key, Fact>,
) -> Result<(), Want>
    ensures { OnOk result (CopiesSummary whole.now sub fixed.old fixed.new) }
{
    let key = Key::Summary { sub };
    match whole.get(key) {
        None => Ok(()),
        Some(fact) => {
            let copied = system.copy(alloc, fact)?;
            fixed.put(key, copied)?;
            Ok(())
        }
    }
}

/// Copies what the facts say of the subprogram that a program point calls.
fn copy_called(
    alloc: Global,
    system: &SparcSystem,
    whole: &Facts<Key, Fact>,
    key: Key,
    fixed: &mut Facts<Key, Fact>,
) -> Result<(), Want>
    ensures { OnOk result ((keys : List AnyKey) → AreCopies whole.now fixed.old keys → AreCopies whole.now fixed.new (keys ++ key ∷ [])) }
{
    match called_by(key) {
        None => Ok(()),
        Some(sub) => copy_summary(alloc, system, whole, sub, fixed),
    }
}

/// What the facts say of all subprograms that some program points call, and nothing else.
pub fn summaries_of(
    alloc: Global,
    system: &SparcSystem,
    whole: &Facts<Key, Fact>,
    keys: &[Key],
) -> Result<Facts<Key, Fact>, Want>
    ensures { IfOk result (λ fixed. AreCopies whole.now fixed keys.now) }
{
    let mut fixed = Facts::empty(alloc);
    for key in keys {
        copy_called(alloc, system, whole, *key, &mut fixed)?;
    }
    Ok(fixed)
}
