//! Operands as cells and words, and operations on values.
ghost use Rattle.std.specs.Prelude.{◌≡◌, ◌<◌};
ghost use Rattle.sparc_decode.specs.Instr.{IsOperand};
ghost use Rattle.transfer_acts.specs.Operand.{operand, operation, register, right_of, shift_operation, tagged_operation};

use abs_state::Right;
use call_effects::cell_of;
use sparc_decode::{AluOp, Second, ShiftOp, TaggedOp};
use value_ops::Op;

/// The content of a register.
pub fn register(depth: u8, r: u8) -> Right
    requires depth { depth < 2 }
    requires register { r < 32 }
    ensures { result ≡ register depth r }
{
    Right::Cell(cell_of(depth, r))
}

/// A second operand.
pub fn operand(depth: u8, second: Second) -> Right
    requires depth { depth < 2 }
    requires operand { IsOperand second }
    ensures { result ≡ operand depth second }
{
    match second {
        Second::Reg(r) => register(depth, r),
        Second::Imm(n) => Right::Word(n.cast_unsigned()),
    }
}

/// A second operand as the condition codes know it: r0 is the word 0.
pub fn right_of(depth: u8, second: Second) -> Right
    requires depth { depth < 2 }
    requires operand { IsOperand second }
    ensures { result ≡ right_of depth second }
{
    match second {
        Second::Reg(r) => {
            if r == 0 {
                Right::Word(0)
            } else {
                register(depth, r)
            }
        }
        Second::Imm(n) => Right::Word(n.cast_unsigned()),
    }
}

/// The operation of the arithmetic and logical unit.
pub fn operation(op: AluOp) -> Op
    ensures { result ≡ operation op }
{
    match op {
        AluOp::Add => Op::Add,
        AluOp::And => Op::And,
        AluOp::Or => Op::Or,
        AluOp::Xor => Op::Xor,
        AluOp::Sub => Op::Sub,
        AluOp::Andn => Op::Andn,
        AluOp::Orn => Op::Orn,
        AluOp::Xnor => Op::Xnor,
        AluOp::Addx => Op::Addx,
        AluOp::Subx => Op::Subx,
    }
}

/// That of a tagged sum or difference.
pub fn tagged_operation(op: TaggedOp) -> Op
    ensures { result ≡ tagged_operation op }
{
    match op {
        TaggedOp::Taddcc => Op::Add,
        TaggedOp::Tsubcc => Op::Sub,
        TaggedOp::Taddcctv => Op::Add,
        TaggedOp::Tsubcctv => Op::Sub,
    }
}

/// That of a shift.
pub fn shift_operation(op: ShiftOp) -> Op
    ensures { result ≡ shift_operation op }
{
    match op {
        ShiftOp::Sll => Op::Sll,
        ShiftOp::Srl => Op::Srl,
        ShiftOp::Sra => Op::Sra,
    }
}
