//! Which subprograms are looked into.
ghost use Rattle.std.specs.Prelude.{◌≡◌, ◌++◌, ◌↔◌, ℕ, Contains, IfOk, OnOk};
ghost use Rattle.std.specs.List.{flat_map};
ghost use Rattle.std.specs.List.Sorted.{IsStrictlyIncreasing};
ghost use Rattle.assert_bind.specs.Binding.{roots};
ghost use Rattle.plain_parts.specs.Listed.{AreListed, called_in};

use abs_state::Key;
use assert_bind::Binding;
use bt_base::{Want, put_in_order};
use std::alloc::Global;

/// Appends what a key calls, unless that is a stub.
fn push_called(list: &mut Vec<u32>, binding: &Binding, key: &Key) -> Result<(), Want>
    ensures { OnOk result (list.new.items ≡ list.old.items ++ called_in binding.now key.now) }
{
    match key {
        Key::Node(_) => Ok(()),
        Key::Edge { .. } => Ok(()),
        Key::Call { callee, .. } => {
            if binding.stub(*callee).is_some() {
                return Ok(());
            }
            list.push(*callee)?;
            Ok(())
        }
        Key::Summary { .. } => Ok(()),
        Key::Gap { .. } => Ok(()),
    }
}

/// What keys call but stubs, in their order, behind a list.
fn with_called(mut list: Vec<u32>, binding: &Binding, keys: &[Key]) -> Result<Vec<u32>, Want>
    ensures { IfOk result (λ all. all.items ≡ list.items ++ flat_map (called_in binding.now) keys.now) }
{
    for key in keys {
        push_called(&mut list, binding, key)?;
    }
    Ok(list)
}

/// The roots, in their file's order.
fn roots_of(alloc: Global, binding: &Binding) -> Result<Vec<u32>, Want>
    ensures { IfOk result (λ list. list.items ≡ roots binding.now) }
{
    let list = binding.roots().iter().copied().collect(alloc)?;
    Ok(list)
}

/// The roots, rising, each once.
pub fn rising_roots(alloc: Global, binding: &Binding) -> Result<Vec<u32>, Want>
    ensures rising { IfOk result (λ list. IsStrictlyIncreasing list.items) }
    ensures roots { IfOk result (λ list. (sub : ℕ) → Contains list.items sub ↔ Contains (roots binding.now) sub) }
{
    let mut list = roots_of(alloc, binding)?;
    put_in_order(&mut list);
    Ok(list)
}

/// The subprograms that are roots, or that some key calls and that are no stubs: rising, each once.
pub fn listed(alloc: Global, binding: &Binding, keys: &[Key]) -> Result<Vec<u32>, Want>
    ensures { IfOk result (λ subs. AreListed binding.now keys.now subs.items) }
{
    let roots = roots_of(alloc, binding)?;
    let mut subs = with_called(roots, binding, keys)?;
    put_in_order(&mut subs);
    Ok(subs)
}
