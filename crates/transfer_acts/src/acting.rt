//! What each class of instructions does at a place.
ghost use Rattle.std.specs.Prelude.{◌==◌, ◌≡◌, ◌<◌, pos, if◌then◌else◌};
ghost use Rattle.sparc_decode.specs.Instr.{AreOperands, InRange};
ghost use Rattle.sparc_machine.specs.Effect.{is_odd_double_load, is_odd_double_store};
ghost use Rattle.transfer_acts.specs.Act.{act_of, in_line, open_instruction, plain, restore, save};
ghost use Rattle.transfer_acts.specs.Flag.{where_set};
ghost use Rattle.transfer_acts.specs.Operand.{shift_operation, tagged_operation};
ghost use Rattle.transfer_acts.specs.Step.{applied, nothing, read, sets};

use crate::branching::{branch, float_branch, is_next, open_instruction};
use crate::flags::where_set;
use crate::operands::{shift_operation, tagged_operation};
use crate::steps::{applied, nothing, operated, read, sets, turned};
use crate::transfers::{call_to, jump_to};
use abs_state::{Flags, Place};
use sparc_decode::{Instr, LoadKind, Second, ShiftOp, StoreKind, TaggedOp};
use transfer_rules::{Act, Source, Step, Way};
use value_ops::Op;

/// An instruction that only sets cells.
fn plain(step: Step) -> Act
    ensures { result ≡ plain step }
{
    Act::Acts {
        step,
        way: Way::Onward,
    }
}

/// A transfer in its place.
fn in_line(p: Place, act: Act) -> Act
    ensures { result ≡ in_line p act }
{
    if is_next(p.next, p.pc) {
        act
    } else {
        open_instruction()
    }
}

/// An instruction that writes any word into a register.
fn writes_any(depth: u8, rd: u8, flags: Option<Flags>) -> Act
    requires depth { depth < 2 }
    requires register { rd < 32 }
    ensures { result ≡ plain (sets depth rd Source.Anything flags) }
{
    plain(sets(depth, rd, Source::Anything, flags))
}

/// A tagged sum or difference.
fn tagged(depth: u8, op: TaggedOp, rd: u8, rs1: u8, second: Second) -> Act
    requires depth { depth < 2 }
    requires operands { AreOperands rd rs1 second }
    ensures { result ≡ plain (sets depth rd (applied (tagged_operation op) depth rs1 second) (Some Flags.Unknown)) }
{
    let source = applied(tagged_operation(op), depth, rs1, second);
    plain(sets(depth, rd, source, Some(Flags::Unknown)))
}

/// A shift.
fn shift(depth: u8, op: ShiftOp, rd: u8, rs1: u8, second: Second) -> Act
    requires depth { depth < 2 }
    requires operands { AreOperands rd rs1 second }
    ensures { result ≡ plain (sets depth rd (applied (shift_operation op) depth rs1 second) None) }
{
    let source = applied(shift_operation(op), depth, rs1, second);
    plain(sets(depth, rd, source, None))
}

/// SAVE.
fn save(depth: u8, rd: u8, rs1: u8, second: Second) -> Act
    requires { AreOperands rd rs1 second }
    ensures { result ≡ save depth rd rs1 second }
{
    if depth == 0 {
        plain(turned(0, 1, rd, rs1, second))
    } else {
        open_instruction()
    }
}

/// RESTORE.
fn restore(depth: u8, rd: u8, rs1: u8, second: Second) -> Act
    requires { AreOperands rd rs1 second }
    ensures { result ≡ restore depth rd rs1 second }
{
    if depth == 1 {
        plain(turned(1, 0, rd, rs1, second))
    } else {
        open_instruction()
    }
}

/// A load.
fn load(depth: u8, kind: LoadKind, rd: u8, rs1: u8, second: Second) -> Act
    requires depth { depth < 2 }
    requires operands { AreOperands rd rs1 second }
    ensures { result ≡ (if is_odd_double_load kind rd then open_instruction else plain (read depth kind rd rs1 second)) }
{
    if kind == LoadKind::Ldd && rd % 2 == 1 {
        open_instruction()
    } else {
        plain(read(depth, kind, rd, rs1, second))
    }
}

/// A store.
fn store(depth: u8, kind: StoreKind, rd: u8) -> Act
    ensures { result ≡ (if is_odd_double_store kind rd then open_instruction else plain (nothing depth)) }
{
    if kind == StoreKind::Std && rd % 2 == 1 {
        open_instruction()
    } else {
        plain(nothing(depth))
    }
}

/// A load and a store in one.
fn atomic(depth: u8, swap: bool, rd: u8) -> Act
    requires depth { depth < 2 }
    requires register { rd < 32 }
    ensures { result ≡ plain (sets depth rd (if swap then Source.Anything else Source.Ranged (pos 0) (pos 255)) None) }
{
    if swap {
        writes_any(depth, rd, None)
    } else {
        plain(sets(depth, rd, Source::Ranged { lo: 0, hi: 255 }, None))
    }
}

/// A multiplication.
fn multiply(eight: bool, depth: u8, cc: bool, rd: u8, rs1: u8, second: Second) -> Act
    requires depth { depth < 2 }
    requires operands { AreOperands rd rs1 second }
    ensures { result ≡ (if eight then plain (sets depth rd (applied Op.Mul depth rs1 second) (where_set cc Flags.Unknown)) else open_instruction) }
{
    if eight {
        let source = applied(Op::Mul, depth, rs1, second);
        plain(sets(depth, rd, source, where_set(cc, Flags::Unknown)))
    } else {
        open_instruction()
    }
}

/// A division.
fn divide(eight: bool, depth: u8, cc: bool, rd: u8) -> Act
    requires depth { depth < 2 }
    requires register { rd < 32 }
    ensures { result ≡ (if eight then plain (sets depth rd Source.Anything (where_set cc Flags.Unknown)) else open_instruction) }
{
    if eight {
        writes_any(depth, rd, where_set(cc, Flags::Unknown))
    } else {
        open_instruction()
    }
}

/// A trap on a condition: condition 0 is never true.
fn trap(depth: u8, cond: u8) -> Act
    ensures { result ≡ (if cond == 0 then plain (nothing depth) else open_instruction) }
{
    if cond == 0 {
        plain(nothing(depth))
    } else {
        open_instruction()
    }
}

/// What an instruction of a place does.
pub fn act_of(eight: bool, p: Place, delay: &Option<Instr>, i: &Instr) -> Act
    requires depth { p.depth < 2 }
    requires fields { InRange i.now }
    ensures { result ≡ act_of eight p delay.now i.now }
{
    let depth = p.depth;
    match *i {
        Instr::Call { disp } => {
            let target = p.pc.wrapping_add(disp * 4);
            in_line(p, call_to(p, delay, target))
        }
        Instr::Unimp { .. } => open_instruction(),
        Instr::Sethi { rd, imm } => plain(sets(depth, rd, Source::Exactly(imm * 1024), None)),
        Instr::Branch { annul, cond, disp } => branch(p, annul, cond, disp),
        Instr::FloatBranch { annul, cond, disp } => float_branch(p, annul, cond, disp),
        Instr::Alu {
            op,
            cc,
            rd,
            rs1,
            second,
        } => plain(operated(depth, op, cc, rd, rs1, second)),
        Instr::Tagged {
            op,
            rd,
            rs1,
            second,
        } => tagged(depth, op, rd, rs1, second),
        Instr::MulStep { rd, .. } => writes_any(depth, rd, Some(Flags::Unknown)),
        Instr::Shift {
            op,
            rd,
            rs1,
            second,
        } => shift(depth, op, rd, rs1, second),
        Instr::ReadY { rd } => writes_any(depth, rd, None),
        Instr::WriteY { .. } => plain(nothing(depth)),
        Instr::FloatOp(_) => plain(nothing(depth)),
        Instr::FloatCmp(_) => plain(nothing(depth)),
        Instr::Jmpl { rd, rs1, second } => in_line(p, jump_to(p, delay, rd, rs1, second)),
        Instr::Flush { .. } => plain(nothing(depth)),
        Instr::Save { rd, rs1, second } => save(depth, rd, rs1, second),
        Instr::Restore { rd, rs1, second } => restore(depth, rd, rs1, second),
        Instr::Ticc { cond, .. } => trap(depth, cond),
        Instr::Load {
            kind,
            rd,
            rs1,
            second,
        } => load(depth, kind, rd, rs1, second),
        Instr::Store { kind, rd, .. } => store(depth, kind, rd),
        Instr::Atomic { swap, rd, .. } => atomic(depth, swap, rd),
        Instr::FloatMem { .. } => plain(nothing(depth)),
        Instr::Unmodelled(_) => open_instruction(),
        Instr::Unknown(_) => open_instruction(),
        Instr::Multiply {
            cc,
            rd,
            rs1,
            second,
        } => multiply(eight, depth, cc, rd, rs1, second),
        Instr::Divide { cc, rd, .. } => divide(eight, depth, cc, rd),
    }
}
