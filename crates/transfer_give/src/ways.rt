//! How control goes on behind a step, in pieces.
ghost use Rattle.std.specs.Prelude.{◌≡◌, ◌<◌, true, not, [], ◌∷◌, ◌++◌, OnOk};
ghost use Rattle.std.specs.List.{flat_map, list_any};
ghost use Rattle.abs_state.specs.State.{cell_at, is_state_over};
ghost use Rattle.abs_state.specs.declared.key.GapKind.TheVariants as why;
ghost use Rattle.abs_state.specs.declared.key.Next.TheVariants as next;
ghost use Rattle.transfer_rules.specs.Give.{beside_to, called_to, delayed, entered_to, exits, gap, given_if, goes, here_to, is_behind, is_known, jumped_to};
ghost use Rattle.value_lattice.specs.Test.{is_at_most as is_value_at_most};
ghost use Rattle.value_lattice.specs.Value.{is_ret};
ghost use Rattle.value_lattice.specs.declared.value.Value.TheVariants.{Ret};

use crate::Transfers;
use crate::calls::push_call;
use crate::pieces::{push_effects, push_gap, push_goes};
use crate::places::{behind, delayed, onward, place};
use abs_state::{AbsState, GapKind, Key, Next, Place};
use bt_base::Want;
use call_effects::{Mask, Summary};
use std::alloc::Global;
use transfer_rules::{Aim, Exit, Fact};
use value_lattice::Value;

/// What the delay instruction of a return gives.
fn push_return<F: Transfers>(
    f: &F,
    pieces: &mut Vec<(Key, Fact)>,
    p: Place,
    depth: u8,
    s: &AbsState,
) -> Result<(), Want>
    ensures { OnOk result (pieces.new.items ≡ pieces.old.items ++ beside_to next.Back (F.program f.now) p depth None s.now) }
{
    let _ = s;
    if depth == 0 {
        let skips = f.skips(p);
        push_effects(pieces, p.sub, !skips, skips, Mask::none())
    } else {
        push_gap(pieces, p, GapKind::Instr)
    }
}

/// To where control was to go.
pub fn push_onward<F: Transfers>(
    f: &F,
    alloc: Global,
    pieces: &mut Vec<(Key, Fact)>,
    p: Place,
    depth: u8,
    callee: Option<Summary>,
    s: AbsState,
) -> Result<(), Want>
    requires { depth < 2 }
    ensures { OnOk result (pieces.new.items ≡ pieces.old.items
        ++ (beside_to p.next (F.program f.now) p depth callee s
        ++ (here_to p.next p depth callee s ++ entered_to p.next (F.program f.now) depth s))) }
{
    match p.next {
        Next::At(n) => push_goes(pieces, p, onward(p, n, depth), s),
        Next::Into(t) => push_call(f, alloc, pieces, p, t, depth, &callee, &s),
        Next::Back => push_return(f, pieces, p, depth, &s),
    }
}

/// A direction of a branch.
fn push_exit<F: Transfers>(
    f: &F,
    alloc: Global,
    pieces: &mut Vec<(Key, Fact)>,
    p: Place,
    exit: Option<Exit>,
    s: &AbsState,
) -> Result<(), Want>
    requires { is_state_over (F.thresholds f.now) s.now ≡ true }
    ensures { OnOk result (pieces.new.items ≡ pieces.old.items ++ exits (F.family f.now) p exit s.now) }
{
    let Some(exit) = exit else {
        return Ok(());
    };
    match f.test(alloc, exit.test, s)? {
        None => Ok(()),
        Some(left) => {
            let to = place(p, exit.pc, Next::At(exit.npc), p.depth);
            push_goes(pieces, p, to, left)
        }
    }
}

/// Whether the address behind a call's delay instruction is in a list.
fn has_behind(p: Place, list: &[u32]) -> bool
    ensures { result ≡ list_any (is_behind p) list.now }
{
    let a = behind(p.pc, 8);
    list.iter().any(|t| *t == a)
}

/// Into a subprogram, but for the address behind the call's delay instruction.
fn push_called_to(
    alloc: Global,
    pieces: &mut Vec<(Key, Fact)>,
    p: Place,
    t: u32,
    s: &AbsState,
) -> Result<(), Want>
    ensures { OnOk result (pieces.new.items ≡ pieces.old.items ++ called_to p s.now t) }
{
    if t == behind(p.pc, 8) {
        return Ok(());
    }
    push_goes(pieces, p, delayed(p, Next::Into(t)), s.copy(alloc)?)
}

/// To an address.
fn push_jumped_to(
    alloc: Global,
    pieces: &mut Vec<(Key, Fact)>,
    p: Place,
    t: u32,
    s: &AbsState,
) -> Result<(), Want>
    ensures { OnOk result (pieces.new.items ≡ pieces.old.items ++ jumped_to p s.now t) }
{
    push_goes(pieces, p, delayed(p, Next::At(t)), s.copy(alloc)?)
}

/// The targets of a call.
fn push_calls(
    alloc: Global,
    pieces: &mut Vec<(Key, Fact)>,
    p: Place,
    targets: &[u32],
    s: &AbsState,
) -> Result<(), Want>
    ensures { OnOk result (pieces.new.items ≡ pieces.old.items ++ flat_map (called_to p s.now) targets.now) }
{
    for t in targets {
        push_called_to(alloc, pieces, p, *t, s)?;
    }
    Ok(())
}

/// The targets of a jump.
fn push_jumps(
    alloc: Global,
    pieces: &mut Vec<(Key, Fact)>,
    p: Place,
    targets: &[u32],
    s: &AbsState,
) -> Result<(), Want>
    ensures { OnOk result (pieces.new.items ≡ pieces.old.items ++ flat_map (jumped_to p s.now) targets.now) }
{
    for t in targets {
        push_jumped_to(alloc, pieces, p, *t, s)?;
    }
    Ok(())
}

/// A gap, where there is one.
fn push_gap_unless(
    pieces: &mut Vec<(Key, Fact)>,
    known: bool,
    p: Place,
    why: GapKind,
) -> Result<(), Want>
    ensures { OnOk result (pieces.new.items ≡ pieces.old.items ++ given_if (not known) (gap p why ∷ [])) }
{
    if known {
        Ok(())
    } else {
        push_gap(pieces, p, why)
    }
}

/// A call, of the state before it and the one behind it.
pub fn push_calls_to<F: Transfers>(
    f: &F,
    alloc: Global,
    pieces: &mut Vec<(Key, Fact)>,
    p: Place,
    aim: Aim,
    before: &AbsState,
    s: &AbsState,
) -> Result<(), Want>
    requires { is_state_over (F.thresholds f.now) before.now ≡ true }
    ensures { OnOk result (pieces.new.items ≡ pieces.old.items
        ++ (given_if (not (is_known p ((F.family f.now).resolve p.pc aim before.now))) (gap p why.Call ∷ [])
        ++ flat_map (called_to p s.now) ((F.family f.now).resolve p.pc aim before.now).list)) }
{
    let targets = f.resolve(alloc, p.pc, aim, before)?;
    let known = targets.whole && !has_behind(p, targets.list.as_slice());
    push_gap_unless(pieces, known, p, GapKind::Call)?;
    push_calls(alloc, pieces, p, targets.list.as_slice(), s)
}

/// A jump, of the state before it and the one behind it.
pub fn push_jumps_to<F: Transfers>(
    f: &F,
    alloc: Global,
    pieces: &mut Vec<(Key, Fact)>,
    p: Place,
    aim: Aim,
    before: &AbsState,
    s: &AbsState,
) -> Result<(), Want>
    requires { is_state_over (F.thresholds f.now) before.now ≡ true }
    ensures { OnOk result (pieces.new.items ≡ pieces.old.items
        ++ (given_if (not ((F.family f.now).resolve p.pc aim before.now).whole) (gap p why.Jump ∷ [])
        ++ flat_map (jumped_to p s.now) ((F.family f.now).resolve p.pc aim before.now).list)) }
{
    let targets = f.resolve(alloc, p.pc, aim, before)?;
    push_gap_unless(pieces, targets.whole, p, GapKind::Jump)?;
    push_jumps(alloc, pieces, p, targets.list.as_slice(), s)
}

/// Whether a value is the return address.
fn is_ret(v: &Value) -> bool
    ensures { result ≡ is_ret v.now }
{
    match v {
        Value::Ret => true,
        Value::Words(_) => false,
        Value::Range { .. } => false,
    }
}

/// Whether a cell is the return address; past the last cell it is any word.
fn has_return_address(s: &AbsState, c: u8) -> bool
    ensures { result ≡ is_ret (cell_at s.now c) }
{
    // A state has 48 cells, as each of its calls says.
    let _known = s.flags();
    c < 48 && is_ret(s.get(c))
}

/// Whether a cell is the return address or any word.
fn may_have_return_address(s: &AbsState, c: u8) -> bool
    ensures { result ≡ is_value_at_most Ret (cell_at s.now c) }
{
    let _known = s.flags();
    c >= 48 || Value::Ret.at_most(s.get(c))
}

/// A return, of the state before it and the one behind it.
pub fn push_returns_by(
    pieces: &mut Vec<(Key, Fact)>,
    p: Place,
    c: u8,
    before: &AbsState,
    s: AbsState,
) -> Result<(), Want>
    ensures { OnOk result (pieces.new.items ≡ pieces.old.items
        ++ (given_if (not (is_ret (cell_at before.now c))) (gap p why.Jump ∷ [])
        ++ given_if (is_value_at_most Ret (cell_at before.now c)) (goes p (delayed p next.Back) s))) }
{
    push_gap_unless(pieces, has_return_address(before, c), p, GapKind::Jump)?;
    if may_have_return_address(before, c) {
        push_goes(pieces, p, delayed(p, Next::Back), s)
    } else {
        Ok(())
    }
}

/// The two directions of a branch.
pub fn push_exits<F: Transfers>(
    f: &F,
    alloc: Global,
    pieces: &mut Vec<(Key, Fact)>,
    p: Place,
    first: Option<Exit>,
    second: Option<Exit>,
    s: &AbsState,
) -> Result<(), Want>
    requires { is_state_over (F.thresholds f.now) s.now ≡ true }
    ensures { OnOk result (pieces.new.items ≡ pieces.old.items ++ (exits (F.family f.now) p first s.now ++ exits (F.family f.now) p second s.now)) }
{
    push_exit(f, alloc, pieces, p, first, s)?;
    push_exit(f, alloc, pieces, p, second, s)
}
