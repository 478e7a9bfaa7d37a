ghost use Rattle.std.specs.Prelude.{◌≡◌, OnOk, IfOk};
ghost use Rattle.std.specs.List.Sorted.{IsStrictlySortedBy};
ghost use Rattle.std.specs.Option.{option_copied};
ghost use Rattle.flow_system.specs.Facts.{fact_at};
ghost use Rattle.local_facts.specs.Restricted.{is_listed, beside, kept_pieces};
ghost use Rattle.local_facts.specs.Copied.{CopiesBeside, IsCopyBeside};

use bt_base::Want;
use flow_system::{Facts, System};
use std::alloc::Global;

/// Whether a key is among rising keys. The work is logarithmic in their number.
pub fn is_kept<K: Ord + Copy>(keep: &[K], k: K) -> bool
    requires { IsStrictlySortedBy K.cmp keep.now }
    ensures { result ≡ is_listed K.cmp keep.now k }
{
    keep.binary_search(&k).is_ok()
}

/// The fact at a key of the state with the fixed facts beside it.
fn fact_beside<'a, K: Ord + Copy, V>(
    keep: &[K],
    fixed: &'a Facts<K, V>,
    facts: &'a Facts<K, V>,
    k: K,
) -> Option<&'a V>
    requires { IsStrictlySortedBy K.cmp keep.now }
    ensures { option_copied result ≡ beside K.cmp keep.now fixed.now (fact_at K.cmp facts.now) k }
{
    if is_kept(keep, k) {
        facts.get(k)
    } else {
        fixed.get(k)
    }
}

/// Copies the fact at a key of the state with the fixed facts beside it, if there is one.
fn copy_beside<S: System>(
    system: &S,
    alloc: Global,
    keep: &[S::Key],
    fixed: &Facts<S::Key, S::Val>,
    facts: &Facts<S::Key, S::Val>,
    k: S::Key,
    copies: &mut Facts<S::Key, S::Val>,
) -> Result<(), Want>
    requires { IsStrictlySortedBy S.Key.cmp keep.now }
    ensures { OnOk result (CopiesBeside S.Key.cmp keep.now fixed.now facts.now k copies.old copies.new) }
{
    match fact_beside(keep, fixed, facts, k) {
        None => Ok(()),
        Some(fact) => {
            let copied = system.copy(alloc, fact)?;
            copies.put(k, copied)?;
            Ok(())
        }
    }
}

/// Copies of the facts at these keys of the state with the fixed facts beside it.
pub fn copies_beside<S: System>(
    system: &S,
    alloc: Global,
    keep: &[S::Key],
    fixed: &Facts<S::Key, S::Val>,
    facts: &Facts<S::Key, S::Val>,
    keys: &[S::Key],
) -> Result<Facts<S::Key, S::Val>, Want>
    requires { IsStrictlySortedBy S.Key.cmp keep.now }
    ensures { IfOk result (IsCopyBeside S.Key.cmp keep.now fixed.now facts.now keys.now) }
{
    let mut copies = Facts::empty(alloc);
    for k in keys {
        copy_beside(system, alloc, keep, fixed, facts, *k, &mut copies)?;
    }
    Ok(copies)
}

/// Takes the pieces out whose keys aren't kept.
pub fn keep_pieces<K: Ord + Copy + Drop, V: Drop>(keep: &[K], pieces: &mut Vec<(K, V)>)
    requires { IsStrictlySortedBy K.cmp keep.now }
    ensures { pieces.new.items ≡ kept_pieces K.cmp keep.now pieces.old.items }
{
    pieces.retain(|piece| is_kept(keep, piece.0));
}

/// Copies of the pieces of a list.
pub fn copy_pieces<S: System>(
    system: &S,
    alloc: Global,
    pieces: &[(S::Key, S::Val)],
) -> Result<Vec<(S::Key, S::Val)>, Want>
    ensures { IfOk result (λ copied. copied.items ≡ pieces.now) }
{
    let mut copied = Vec::new(alloc);
    for piece in pieces {
        let fact = system.copy(alloc, &piece.1)?;
        copied.push((piece.0, fact))?;
    }
    Ok(copied)
}
