ghost use Rattle.std.specs.Prelude.{◌≡◌, ◌∷◌, ◌++◌, List, [], Some, IfOk, OnOk, IsTrue, count_by, false};
ghost use Rattle.std.specs.Option.{option_copied};
ghost use Rattle.flow_system.specs.Facts.{fact_at, KeysRise};
ghost use Rattle.flow_system.specs.State.{AllFit};
ghost use Rattle.flow_core.specs.Staged.{written, PiecesFit, IsStaged, is_fresh_key, IsCopy, CopiesFact, AgreesAt};

use bt_base::Want;
use flow_system::{Facts, System};
use std::alloc::Global;

/// The fact at a key once the risen ones are written.
fn current<'a, K: Ord + Copy, V>(
    facts: &'a Facts<K, V>,
    risen: &'a Facts<K, V>,
    k: K,
) -> Option<&'a V>
    ensures { option_copied result ≡ written K.cmp facts.now risen.now k }
{
    match risen.get(k) {
        Some(fact) => Some(fact),
        None => facts.get(k),
    }
}

/// Stages a piece: a risen fact of its key that is at least the piece and what was there.
fn stage_piece<S: System>(
    system: &S,
    alloc: Global,
    facts: &Facts<S::Key, S::Val>,
    risen: &mut Facts<S::Key, S::Val>,
    k: S::Key,
    v: &S::Val,
) -> Result<(), Want>
    requires facts_fit { AllFit (S.rules system.now) (fact_at S.Key.cmp facts.now) }
    requires risen_fit { AllFit (S.rules system.now) (written S.Key.cmp facts.now risen.old) }
    requires piece_fits { IsTrue ((S.rules system.now).fits k v.now) }
    ensures staged { OnOk result ((done : List (S.Key × S.Val)) → PiecesFit (S.rules system.now) done
        → IsStaged S.Key.cmp (S.rules system.now) facts.now done risen.old
        → IsStaged S.Key.cmp (S.rules system.now) facts.now (done ++ (k, v.now) ∷ []) risen.new) }
{
    match current(facts, risen, k) {
        None => {
            let copied = system.copy(alloc, v)?;
            risen.put(k, copied)?;
            Ok(())
        }
        Some(there) => {
            if system.at_most(v, there) {
                return Ok(());
            }
            let joined = system.join(alloc, there, v)?;
            risen.put(k, joined)?;
            Ok(())
        }
    }
}

/// Stages the pieces: the facts that rise when they are joined.
pub fn stage<S: System>(
    system: &S,
    alloc: Global,
    facts: &Facts<S::Key, S::Val>,
    pieces: &[(S::Key, S::Val)],
) -> Result<Facts<S::Key, S::Val>, Want>
    requires facts_fit { AllFit (S.rules system.now) (fact_at S.Key.cmp facts.now) }
    requires pieces_fit { PiecesFit (S.rules system.now) pieces.now }
    ensures { IfOk result (IsStaged S.Key.cmp (S.rules system.now) facts.now pieces.now) }
{
    let mut risen = Facts::empty(alloc);
    for piece in pieces {
        stage_piece(system, alloc, facts, &mut risen, piece.0, &piece.1)?;
    }
    Ok(risen)
}

/// How many of the keys are counted and not among the facts.
pub fn count_fresh<S: System>(system: &S, facts: &Facts<S::Key, S::Val>, keys: &[S::Key]) -> usize
    ensures { result ≡ count_by (is_fresh_key S.Key.cmp (S.rules system.now) facts.now) keys.now }
{
    let mut count = 0;
    for k in keys {
        if system.counted(*k) && facts.get(*k).is_none() {
            count += 1;
        }
    }
    count
}

/// Copies the fact at a key, if there is one.
fn copy_fact<S: System>(
    system: &S,
    alloc: Global,
    facts: &Facts<S::Key, S::Val>,
    k: S::Key,
    copies: &mut Facts<S::Key, S::Val>,
) -> Result<(), Want>
    ensures { OnOk result (CopiesFact S.Key.cmp facts.now k copies.old copies.new) }
{
    match facts.get(k) {
        None => Ok(()),
        Some(fact) => {
            let copied = system.copy(alloc, fact)?;
            copies.put(k, copied)?;
            Ok(())
        }
    }
}

/// Copies of the facts at these keys.
pub fn copy_facts<S: System>(
    system: &S,
    alloc: Global,
    facts: &Facts<S::Key, S::Val>,
    keys: &[S::Key],
) -> Result<Facts<S::Key, S::Val>, Want>
    ensures { IfOk result (IsCopy S.Key.cmp facts.now keys.now) }
{
    let mut copies = Facts::empty(alloc);
    for k in keys {
        copy_fact(system, alloc, facts, *k, &mut copies)?;
    }
    Ok(copies)
}

/// Whether a copy is the fact at a key, or both are missing.
fn is_same<S: System>(
    system: &S,
    facts: &Facts<S::Key, S::Val>,
    copies: &Facts<S::Key, S::Val>,
    k: S::Key,
) -> bool
    requires facts_fit { AllFit (S.rules system.now) (fact_at S.Key.cmp facts.now) }
    requires copies_fit { AllFit (S.rules system.now) (fact_at S.Key.cmp copies.now) }
    ensures same { IsTrue result → fact_at S.Key.cmp copies.now k ≡ fact_at S.Key.cmp facts.now k }
    ensures other { result ≡ false → fact_at S.Key.cmp copies.now k ≡ fact_at S.Key.cmp facts.now k → ⊥ }
{
    match copies.get(k) {
        None => facts.get(k).is_none(),
        Some(copy) => match facts.get(k) {
            None => false,
            Some(fact) => system.at_most(copy, fact) && system.at_most(fact, copy),
        },
    }
}

/// Whether each copy at these keys is the fact that stands there.
pub fn is_fresh<S: System>(
    system: &S,
    facts: &Facts<S::Key, S::Val>,
    copies: &Facts<S::Key, S::Val>,
    keys: &[S::Key],
) -> bool
    requires facts_fit { AllFit (S.rules system.now) (fact_at S.Key.cmp facts.now) }
    requires copies_fit { AllFit (S.rules system.now) (fact_at S.Key.cmp copies.now) }
    ensures fresh { IsTrue result → AgreesAt S.Key.cmp copies.now facts.now keys.now }
    ensures stale { result ≡ false → AgreesAt S.Key.cmp copies.now facts.now keys.now → ⊥ }
{
    for k in keys {
        if !is_same(system, facts, copies, *k) {
            return false;
        }
    }
    true
}
