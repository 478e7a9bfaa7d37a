//! What the condition codes are those of behind an instruction.
ghost use Rattle.std.specs.Prelude.{◌≡◌, ◌<◌};
ghost use Rattle.sparc_decode.specs.Instr.{IsOperand};
ghost use Rattle.transfer_acts.specs.Flag.{is_register, keeps_sources, of_difference, of_logic, of_operation, of_or, of_result, of_test, of_tested, where_set};

use crate::operands::right_of;
use abs_state::{Flags, Right};
use call_effects::cell_of;
use sparc_decode::{AluOp, Second};

/// Those of a register's content less 0.
fn of_test(depth: u8, r: u8) -> Flags
    requires depth { depth < 2 }
    requires register { r < 32 }
    ensures { result ≡ of_test depth r }
{
    Flags::Cmp {
        left: cell_of(depth, r),
        right: Right::Word(0),
    }
}

/// Of a result N and Z are known, where it is kept.
fn of_result(depth: u8, rd: u8) -> Flags
    requires depth { depth < 2 }
    requires register { rd < 32 }
    ensures { result ≡ of_result depth rd }
{
    if rd == 0 {
        Flags::Unknown
    } else {
        Flags::Res {
            cell: cell_of(depth, rd),
        }
    }
}

/// Whether a second operand is this register.
fn is_register(second: Second, rd: u8) -> bool
    ensures { result ≡ is_register second rd }
{
    match second {
        Second::Reg(r) => r == rd,
        Second::Imm(_) => false,
    }
}

/// Whether both sources are left as they were.
fn keeps_sources(rd: u8, rs1: u8, second: Second) -> bool
    ensures { result ≡ keeps_sources rd rs1 second }
{
    rd == 0 || (rd != rs1 && !is_register(second, rd))
}

/// Those of a difference.
fn of_difference(depth: u8, rd: u8, rs1: u8, second: Second) -> Flags
    requires depth { depth < 2 }
    requires result_register { rd < 32 }
    requires register { rs1 < 32 }
    requires operand { IsOperand second }
    ensures { result ≡ of_difference depth rd rs1 second }
{
    if rs1 != 0 && keeps_sources(rd, rs1, second) {
        Flags::Cmp {
            left: cell_of(depth, rs1),
            right: right_of(depth, second),
        }
    } else {
        of_result(depth, rd)
    }
}

/// Those of a logical result.
fn of_logic(depth: u8, rd: u8) -> Flags
    requires depth { depth < 2 }
    requires register { rd < 32 }
    ensures { result ≡ of_logic depth rd }
{
    if rd == 0 {
        Flags::Unknown
    } else {
        of_test(depth, rd)
    }
}

/// Those of an OR with 0 that isn't kept.
fn of_tested(depth: u8, rs1: u8, second: Second) -> Flags
    requires depth { depth < 2 }
    requires register { rs1 < 32 }
    requires operand { IsOperand second }
    ensures { result ≡ of_tested depth rs1 second }
{
    match second {
        Second::Reg(r) => {
            if r == 0 {
                of_test(depth, rs1)
            } else if rs1 == 0 {
                of_test(depth, r)
            } else {
                Flags::Unknown
            }
        }
        Second::Imm(n) => {
            if n == 0 {
                of_test(depth, rs1)
            } else {
                Flags::Unknown
            }
        }
    }
}

/// Those of an OR.
fn of_or(depth: u8, rd: u8, rs1: u8, second: Second) -> Flags
    requires depth { depth < 2 }
    requires result_register { rd < 32 }
    requires register { rs1 < 32 }
    requires operand { IsOperand second }
    ensures { result ≡ of_or depth rd rs1 second }
{
    if rd == 0 {
        of_tested(depth, rs1, second)
    } else {
        of_test(depth, rd)
    }
}

/// Those that an operation with cc sets.
pub fn of_operation(op: AluOp, depth: u8, rd: u8, rs1: u8, second: Second) -> Flags
    requires depth { depth < 2 }
    requires result_register { rd < 32 }
    requires register { rs1 < 32 }
    requires operand { IsOperand second }
    ensures { result ≡ of_operation op depth rd rs1 second }
{
    match op {
        AluOp::Add => of_result(depth, rd),
        AluOp::And => of_logic(depth, rd),
        AluOp::Or => of_or(depth, rd, rs1, second),
        AluOp::Xor => of_logic(depth, rd),
        AluOp::Sub => of_difference(depth, rd, rs1, second),
        AluOp::Andn => of_logic(depth, rd),
        AluOp::Orn => of_logic(depth, rd),
        AluOp::Xnor => of_logic(depth, rd),
        AluOp::Addx => of_result(depth, rd),
        AluOp::Subx => of_result(depth, rd),
    }
}

/// The condition codes that an operation sets, where it sets them.
pub fn where_set(cc: bool, flags: Flags) -> Option<Flags>
    ensures { result ≡ where_set cc flags }
{
    if cc { Some(flags) } else { None }
}
