ghost use Rattle.std.specs.Prelude.{◌≡◌, IsTrue};
ghost use Rattle.flow_core.specs.Staged.{PiecesFit};
ghost use Rattle.flow_system.specs.Due.{IsDueKey};
ghost use Rattle.flow_system.specs.Facts.{fact_at};
ghost use Rattle.flow_system.specs.State.{AllDue, AllFit, IsDue};

use crate::field::DueKeys;
use crate::mail::Mail;
use bt_base::Want;
use edge_publish::Board;
use flow_system::{Facts, Name, Parted};
use std::alloc::Global;
use std::sync::Wait;

/// Puts a due key on the board.
pub fn publish<R: Wait, K: Copy, V, N: Name<K, V>>(
    rt: &R,
    board: &Board<K, DueKeys<V, N>>,
    key: K,
) -> Result<(), Want>
    requires { IsDueKey N.rules key }
{
    match board.publish(rt, key) {
        Ok(_receipt) => Ok(()),
        Err(_refused) => Err(Want),
    }
}

/// Asks the other parts for the facts that a key reads.
fn ask_others<S: Parted>(
    alloc: Global,
    system: &S,
    number: u32,
    mail: &mut Mail<S::Key>,
    k: S::Key,
) -> Result<(), Want> {
    for r in &system.reads(alloc, k)? {
        let home = system.part(*r);
        if home != number {
            mail.ask(home, *r)?;
        }
    }
    Ok(())
}

/// Asks the other parts for the facts that these keys read.
pub fn ask_for_all<S: Parted>(
    alloc: Global,
    system: &S,
    number: u32,
    mail: &mut Mail<S::Key>,
    keys: &[S::Key],
) -> Result<(), Want> {
    for k in keys {
        ask_others(alloc, system, number, mail, *k)?;
    }
    Ok(())
}

/// Notes what a piece tells that is about to be joined to a part's facts.
///
/// A fact that grows is told to the parts that read it, where its key is the part's own, and else to the key's part,
/// where the part found it itself. An own key that is new is put on the board, and the facts that it reads are asked
/// for.
fn tell_piece<R: Wait, S: Parted, N: Name<S::Key, S::Val>>(
    rt: &R,
    alloc: Global,
    system: &S,
    board: &Board<S::Key, DueKeys<S::Val, N>>,
    number: u32,
    facts: &Facts<S::Key, S::Val>,
    mail: &mut Mail<S::Key>,
    k: S::Key,
    v: &S::Val,
    is_found: bool,
) -> Result<(), Want>
    requires named { S.rules system.now ≡ N.rules }
    requires facts_fit { AllFit N.rules (fact_at S.Key.cmp facts.now) }
    requires fits { IsTrue (N.rules.fits k v.now) }
    requires due { IsDue N.rules k v.now }
{
    let home = system.part(k);
    match facts.get(k) {
        Some(fact) => {
            if system.at_most(v, fact) {
                return Ok(());
            }
        }
        None => {
            if home == number {
                publish(rt, board, k)?;
                ask_others(alloc, system, number, mail, k)?;
            }
        }
    }
    if home == number {
        mail.tell_readers(k)
    } else if is_found {
        mail.tell(home, k)
    } else {
        Ok(())
    }
}

/// Notes what pieces tell that are about to be joined to a part's facts.
pub fn tell_pieces<R: Wait, S: Parted, N: Name<S::Key, S::Val>>(
    rt: &R,
    alloc: Global,
    system: &S,
    board: &Board<S::Key, DueKeys<S::Val, N>>,
    number: u32,
    facts: &Facts<S::Key, S::Val>,
    mail: &mut Mail<S::Key>,
    pieces: &[(S::Key, S::Val)],
    is_found: bool,
) -> Result<(), Want>
    requires named { S.rules system.now ≡ N.rules }
    requires facts_fit { AllFit N.rules (fact_at S.Key.cmp facts.now) }
    requires pieces_fit { PiecesFit N.rules pieces.now }
    requires due { AllDue N.rules pieces.now }
{
    for piece in pieces {
        tell_piece(
            rt, alloc, system, board, number, facts, mail, piece.0, &piece.1, is_found,
        )?;
    }
    Ok(())
}
