ghost use Rattle.std.specs.Prelude.{◌≡◌, ◌++◌, IfOk, OnOk};
ghost use Rattle.flow_system.specs.Facts.{fact_at};
ghost use Rattle.part_pool.specs.Pieces.{piece_of, pieces_at};

use bt_base::Want;
use flow_system::{Facts, System};
use std::alloc::Global;

/// Copies the fact at a key, if there is one, to the end of a list of pieces.
fn copy_piece<S: System>(
    alloc: Global,
    system: &S,
    facts: &Facts<S::Key, S::Val>,
    k: S::Key,
    pieces: &mut Vec<(S::Key, S::Val)>,
) -> Result<(), Want>
    ensures { OnOk result (pieces.new.items ≡ pieces.old.items ++ piece_of k (fact_at S.Key.cmp facts.now k)) }
{
    match facts.get(k) {
        None => Ok(()),
        Some(fact) => {
            let copied = system.copy(alloc, fact)?;
            pieces.push((k, copied))?;
            Ok(())
        }
    }
}

/// The pieces that facts have at these keys, in the keys' order.
pub fn copy_pieces<S: System>(
    alloc: Global,
    system: &S,
    facts: &Facts<S::Key, S::Val>,
    keys: &[S::Key],
) -> Result<Vec<(S::Key, S::Val)>, Want>
    ensures { IfOk result (λ pieces. pieces.items ≡ pieces_at S.Key.cmp facts.now keys.now) }
{
    let mut pieces = Vec::new(alloc);
    for k in keys {
        copy_piece(alloc, system, facts, *k, &mut pieces)?;
    }
    Ok(pieces)
}
