//! What program points change in cells.
ghost use Rattle.std.specs.Prelude.{◌≡◌, ℕ, ◌<◌, ◌≤◌, ◌≤ℤ◌, ◌+ℤ◌, List, pos, negsuc, true, IfSome};
ghost use Rattle.abs_state.specs.Key.{compare};
ghost use Rattle.context_bounds.specs.Low.{IsLow};
ghost use Rattle.context_bounds.specs.Setting.{setting_of};
ghost use Rattle.context_outcomes.specs.Counting.{added_amount, added_by, added_to, added_word, amount_of, change_at};
ghost use Rattle.context_outcomes.specs.Counting.{ends_fit, fits, lent_by, word_of, written_at, written_by};
ghost use Rattle.flow_system.specs.Facts.{fact_at};
ghost use Rattle.sparc_decode.specs.Instr.{InRange, IsOperand};
ghost use Rattle.stack_laws.specs.Standing.{summary_in};
ghost use Rattle.transfer_acts.specs.Act.{act_at};
ghost use Rattle.transfer_acts.specs.Operand.{operand};
ghost use Rattle.transfer_acts.specs.Program.{IsShallowAct};
ghost use Rattle.transfer_rules.specs.Give.{mask_of, mask_of_write};
ghost use Rattle.value_lattice.specs.Order.{number_at};

use crate::reading::{instruction_at, summary_in};
use abs_state::{AbsState, Key, Next, Place, Right};
use call_effects::{Mask, after_call, cell_of};
use counter_bound::Change;
use flow_system::Facts;
use sparc_decode::{AluOp, Instr, Second};
use transfer_acts::act_at;
use transfer_fns::SparcSystem;
use transfer_rules::{Act, Fact, Step, Write};
use value_lattice::Value;

/// How many cells a state has.
const CELLS: u8 = 48;

/// A second operand.
fn operand(depth: u8, second: Second) -> Right
    requires depth { depth < 2 }
    requires operand { IsOperand second }
    ensures { result ≡ operand depth second }
{
    match second {
        Second::Reg(r) => Right::Cell(cell_of(depth, r)),
        Second::Imm(n) => Right::Word(n.cast_unsigned()),
    }
}

/// The one word that an operand is in a state, where it is one.
fn word_of(s: &AbsState, right: Right) -> Option<u32>
    ensures { result ≡ word_of s.now right }
{
    let _flags = s.flags();
    match right {
        Right::Word(n) => Some(n),
        Right::Cell(c) => { if c < CELLS { s.get(c).one_word() } else { None } }
    }
}

/// What an addition or a subtraction of a number adds.
fn amount_of(op: AluOp, n: i32) -> Option<i64>
    ensures { result ≡ amount_of op n }
{
    match op {
        AluOp::Add => Some(i64::from(n)),
        AluOp::Sub => Some(-i64::from(n)),
        _ => None,
    }
}

/// Whether a number is one of 32 bits with sign.
fn fits(n: i64) -> bool
    ensures { result ≡ fits n }
{
    i64::from(i32::MIN) <= n && n <= i64::from(i32::MAX)
}

/// The number with sign at a place.
fn number_at(place: u32) -> i64
    ensures value { result ≡ number_at place }
    ensures low { negsuc 2147483647 ≤ℤ result }
    ensures high { result ≤ℤ pos 2147483647 }
{
    if place < 0x8000_0000 {
        -1 - i64::from(0x7fff_ffff - place)
    } else {
        i64::from(place - 0x8000_0000)
    }
}

/// The number with sign at a place, and one added to it.
fn moved(place: u32, k: i64) -> i64
    requires { fits k ≡ true }
    ensures { result ≡ number_at place +ℤ k }
{
    number_at(place) + k
}

/// Whether the number at a place is one of 32 bits once one is added.
fn stays(place: u32, k: i64) -> bool
    requires { fits k ≡ true }
    ensures { result ≡ fits (number_at place +ℤ k) }
{
    fits(moved(place, k))
}

/// Whether both ends of a value, read with sign, are numbers of 32 bits once a number is added.
fn ends_fit(value: &Value, k: i64) -> bool
    requires { fits k ≡ true }
    ensures { result ≡ ends_fit value.now k }
{
    let (low, high) = value.ends();
    stays(low, k) && stays(high, k)
}

/// That a number is added to a cell, where it and the cell's ends allow it.
fn added_amount(s: &AbsState, cell: u8, amount: Option<i64>) -> Option<Change>
    requires above { 1 ≤ cell }
    requires below { cell < 48 }
    ensures value { result ≡ added_amount s.now cell amount }
    ensures low { IfSome result IsLow }
{
    match amount {
        None => None,
        Some(k) => {
            if fits(k) && ends_fit(s.get(cell), k) {
                Some(Change::Add { cell, k: k as i32 })
            } else {
                None
            }
        }
    }
}

/// That an operation adds one word, read with sign, to a cell.
fn added_word(s: &AbsState, op: AluOp, cell: u8, word: Option<u32>) -> Option<Change>
    requires above { 1 ≤ cell }
    requires below { cell < 48 }
    ensures value { result ≡ added_word s.now op cell word }
    ensures low { IfSome result IsLow }
{
    match word {
        None => None,
        Some(w) => added_amount(s, cell, amount_of(op, w.cast_signed())),
    }
}

/// What an instruction adds to the cell that it reads and writes, where it adds one word.
fn added_by(s: &AbsState, depth: u8, instruction: &Option<Instr>) -> Option<Change>
    requires depth { depth < 2 }
    requires fields { IfSome instruction.now InRange }
    ensures value { result ≡ added_by s.now depth instruction.now }
    ensures low { IfSome result IsLow }
{
    match instruction {
        Some(
            Instr::Alu {
                op,
                rd,
                rs1,
                second,
                ..
            },
        ) => {
            let cell = cell_of(depth, *rd);
            if cell == cell_of(depth, *rs1) && cell != 0 {
                added_word(s, *op, cell, word_of(s, operand(depth, *second)))
            } else {
                None
            }
        }
        _ => None,
    }
}

/// The same, but of a delay instruction of a call nothing.
fn added_to(s: &AbsState, depth: u8, instruction: &Option<Instr>, next: Next) -> Option<Change>
    requires depth { depth < 2 }
    requires fields { IfSome instruction.now InRange }
    ensures value { result ≡ added_to s.now depth instruction.now next }
    ensures low { IfSome result IsLow }
{
    match next {
        Next::At(_) => added_by(s, depth, instruction),
        Next::Into(_) => None,
        Next::Back => added_by(s, depth, instruction),
    }
}

/// The cell of a write too.
fn with_write(write: Option<Write>, mask: Mask) -> Mask
    ensures { result ≡ mask_of_write write mask }
{
    match write {
        None => mask,
        Some(w) => {
            if w.cell != 0 && w.cell < CELLS {
                mask.with(w.cell)
            } else {
                mask
            }
        }
    }
}

/// The cells that a step writes.
fn mask_of(step: Step) -> Mask
    ensures { result ≡ mask_of step }
{
    with_write(step.second, with_write(step.first, Mask::none()))
}

/// The cells that an act writes.
fn written_by(act: Act) -> Mask
    ensures { result ≡ written_by act }
{
    match act {
        Act::Dead => Mask::none(),
        Act::Open(_) => Mask::none(),
        Act::Acts { step, .. } => mask_of(step),
    }
}

/// The cells that what is called may write, where an act calls.
fn lent_by(facts: &Facts<Key, Fact>, act: Act, next: Next) -> Mask
    requires { IsShallowAct act }
    ensures { result ≡ lent_by (fact_at compare facts.now) act next }
{
    match act {
        Act::Acts { step, .. } => match next {
            Next::Into(t) => after_call(summary_in(facts, t).written, step.depth),
            Next::At(_) => Mask::none(),
            Next::Back => Mask::none(),
        },
        Act::Dead => Mask::none(),
        Act::Open(_) => Mask::none(),
    }
}

/// What a program point does: its step leads to a depth below 2.
fn shallow_act(system: &SparcSystem, p: Place) -> Act
    requires { p.depth < 2 }
    ensures value { result ≡ act_at system.now.image system.now.binding system.now.eight p }
    ensures shallow { IsShallowAct result }
{
    act_at(system.image(), system.binding(), system.eight(), p)
}

/// The cells that are written at a program point, and by what it calls.
fn written_at(system: &SparcSystem, facts: &Facts<Key, Fact>, p: Place) -> Mask
    requires { p.depth < 2 }
    ensures { (costs : List ℕ) → result ≡ written_at (setting_of system.now costs facts.now) p }
{
    let act = shallow_act(system, p);
    written_by(act).join(lent_by(facts, act, p.next))
}

/// What a program point changes, by what is left of its state where the assertions there hold.
pub fn change_at(
    system: &SparcSystem,
    facts: &Facts<Key, Fact>,
    p: Place,
    state: &Option<AbsState>,
) -> Change
    requires { p.depth < 2 }
    ensures value { (costs : List ℕ) → result ≡ change_at (setting_of system.now costs facts.now) p state.now }
    ensures low { IsLow result }
{
    let mask = written_at(system, facts, p);
    match state {
        None => Change::Other(mask),
        Some(s) => match added_to(s, p.depth, &instruction_at(system.image(), p.pc), p.next) {
            None => Change::Other(mask),
            Some(change) => change,
        },
    }
}
