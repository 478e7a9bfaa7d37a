//! What the delay instruction of a call gives.
ghost use Rattle.std.specs.Prelude.{◌≡◌, ◌<◌, not, [], ◌∷◌, ◌++◌, OnOk};
ghost use Rattle.abs_state.specs.State.{without};
ghost use Rattle.abs_state.specs.declared.key.Next.TheVariants.{Into};
ghost use Rattle.transfer_give.specs.Handed.{call_gives, entered_from, handed_on};
ghost use Rattle.transfer_rules.specs.Give.{called, called_effects, entry_of, given_if, goes, here_to, pieces_of};

use crate::Transfers;
use crate::arguments::{entered_from, handed_on};
use crate::pieces::{push_effects, push_goes};
use crate::places::{behind, entry_of, onward};
use abs_state::{AbsState, Key, Place};
use bt_base::Want;
use call_effects::{Mask, Summary, after_call};
use std::alloc::Global;
use transfer_rules::Fact;

/// Where control comes back to an address, the state there: what the callee may write is any word.
fn push_back(
    alloc: Global,
    pieces: &mut Vec<(Key, Fact)>,
    comes: bool,
    p: Place,
    to: Place,
    s: &AbsState,
    written: Mask,
) -> Result<(), Want>
    ensures { OnOk result (pieces.new.items ≡ pieces.old.items ++ given_if comes (goes p to (without s.now written))) }
{
    if !comes {
        return Ok(());
    }
    let mut kept = s.copy(alloc)?;
    kept.forget(written);
    push_goes(pieces, p, to, kept)
}

/// Where control comes back to from a callee.
fn push_called(
    alloc: Global,
    pieces: &mut Vec<(Key, Fact)>,
    p: Place,
    depth: u8,
    callee: Summary,
    s: &AbsState,
) -> Result<(), Want>
    requires { depth < 2 }
    ensures { OnOk result (pieces.new.items ≡ pieces.old.items ++ called p depth callee s.now) }
{
    let written = after_call(callee.written, depth);
    let near = onward(p, behind(p.pc, 4), depth);
    push_back(alloc, pieces, callee.returns, p, near, s, written)?;
    let far = onward(p, behind(p.pc, 8), depth);
    push_back(alloc, pieces, callee.skips, p, far, s, written)
}

/// What is said of the subprogram that makes a call, and of the one that it calls.
fn push_beside(
    alloc: Global,
    pieces: &mut Vec<(Key, Fact)>,
    p: Place,
    t: u32,
    depth: u8,
    callee: &Option<Summary>,
    s: &AbsState,
) -> Result<(), Want>
    requires { depth < 2 }
    ensures { OnOk result (pieces.new.items ≡ pieces.old.items ++ (Key.Call p t, handed_on depth s.now) ∷ pieces_of callee.now (called_effects p depth)) }
{
    let arguments = handed_on(alloc, depth, s)?;
    pieces.push((Key::Call { from: p, callee: t }, arguments))?;
    match callee {
        None => Ok(()),
        Some(there) => {
            let written = after_call(there.written, depth);
            push_effects(pieces, p.sub, false, false, written)
        }
    }
}

/// Where control comes back to, where anything is known of the callee.
fn push_here(
    alloc: Global,
    pieces: &mut Vec<(Key, Fact)>,
    p: Place,
    t: u32,
    depth: u8,
    callee: &Option<Summary>,
    s: &AbsState,
) -> Result<(), Want>
    requires { depth < 2 }
    ensures { OnOk result (pieces.new.items ≡ pieces.old.items ++ here_to (Into t) p depth callee.now s.now) }
{
    let _ = t;
    match callee {
        None => Ok(()),
        Some(there) => push_called(alloc, pieces, p, depth, *there, s),
    }
}

/// The entry of the callee, unless that is a stub.
fn push_entered<F: Transfers>(
    f: &F,
    alloc: Global,
    pieces: &mut Vec<(Key, Fact)>,
    t: u32,
    depth: u8,
    s: &AbsState,
) -> Result<(), Want>
    requires { depth < 2 }
    ensures { OnOk result (pieces.new.items ≡ pieces.old.items ++ given_if (not ((F.program f.now).is_stub t)) ((Key.Node (entry_of t), entered_from depth s.now) ∷ [])) }
{
    if f.is_stub(t) {
        return Ok(());
    }
    let entry = entered_from(alloc, depth, s)?;
    pieces.push((Key::Node(entry_of(t)), entry))?;
    Ok(())
}

/// What the delay instruction of a call of `t` gives, of the state behind it.
pub fn push_call<F: Transfers>(
    f: &F,
    alloc: Global,
    pieces: &mut Vec<(Key, Fact)>,
    p: Place,
    t: u32,
    depth: u8,
    callee: &Option<Summary>,
    s: &AbsState,
) -> Result<(), Want>
    requires { depth < 2 }
    ensures { OnOk result (pieces.new.items ≡ pieces.old.items ++ call_gives (F.program f.now) p t depth callee.now s.now) }
{
    push_beside(alloc, pieces, p, t, depth, callee, s)?;
    push_here(alloc, pieces, p, t, depth, callee, s)?;
    push_entered(f, alloc, pieces, t, depth, s)
}
