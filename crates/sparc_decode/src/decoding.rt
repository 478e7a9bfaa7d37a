ghost use Rattle.std.specs.Prelude.{◌≡◌, ◌<◌};
ghost use Rattle.sparc_decode.specs.Instr.{instruction_of, InRange};
ghost use Rattle.sparc_decode.specs.Opcodes.{branches, operations, memory, triple};
ghost use Rattle.sparc_decode.specs.Row.{named_by};

use crate::{AluOp, FloatKind, Instr, LoadKind, ShiftOp, StoreKind, TaggedOp, fields};

/// The instruction that a word stands for (SPARC Architecture Manual Version 7, "Opcodes"; of Version 8 the
/// multiplications and divisions).
///
/// Bits that no field names are ignored. An instruction of the manual that isn't modelled is `Unmodelled`, as is each
/// opcode of a coprocessor's loads and stores (op 3, op3 from 30 to 37 in hexadecimal), of which the manual leaves 32
/// open. Any other word whose opcode the manual leaves open is `Unknown`.
#[tactic(auto, unfolding(crate::specs::Instr::instruction_of))]
pub fn decode(word: u32) -> Instr
    ensures value { result ≡ instruction_of word }
    ensures fields { InRange result }
{
    match fields::op(word) {
        0 => branch(fields::op2(word), word),
        1 => Instr::Call {
            disp: fields::disp30(word),
        },
        2 => operation(fields::op3(word), word),
        _ => memory(fields::op3(word), word),
    }
}

/// The instruction of a word whose op is 0.
fn branch(op2: u8, word: u32) -> Instr
    ensures value { result ≡ named_by branches op2 word }
    ensures fields { InRange result }
{
    match op2 {
        0 => Instr::Unimp {
            imm: fields::imm22(word),
        },
        2 => Instr::Branch {
            annul: fields::annul(word),
            cond: fields::cond(word),
            disp: fields::disp22(word),
        },
        4 => Instr::Sethi {
            rd: fields::rd(word),
            imm: fields::imm22(word),
        },
        6 => Instr::FloatBranch {
            annul: fields::annul(word),
            cond: fields::cond(word),
            disp: fields::disp22(word),
        },
        7 => Instr::Unmodelled(word),
        _ => Instr::Unknown(word),
    }
}

/// An operation of the arithmetic and logical unit.
fn alu(op: AluOp, cc: bool, word: u32) -> Instr
    ensures value { result ≡ triple (Instr.Alu op cc) word }
    ensures fields { InRange result }
{
    Instr::Alu {
        op,
        cc,
        rd: fields::rd(word),
        rs1: fields::rs1(word),
        second: fields::second(word),
    }
}

/// A tagged operation.
fn tagged(op: TaggedOp, word: u32) -> Instr
    ensures value { result ≡ triple (Instr.Tagged op) word }
    ensures fields { InRange result }
{
    Instr::Tagged {
        op,
        rd: fields::rd(word),
        rs1: fields::rs1(word),
        second: fields::second(word),
    }
}

/// A shift.
fn shift(op: ShiftOp, word: u32) -> Instr
    ensures value { result ≡ triple (Instr.Shift op) word }
    ensures fields { InRange result }
{
    Instr::Shift {
        op,
        rd: fields::rd(word),
        rs1: fields::rs1(word),
        second: fields::second(word),
    }
}

/// A multiplication.
fn multiply(cc: bool, word: u32) -> Instr
    ensures value { result ≡ triple (Instr.Multiply cc) word }
    ensures fields { InRange result }
{
    Instr::Multiply {
        cc,
        rd: fields::rd(word),
        rs1: fields::rs1(word),
        second: fields::second(word),
    }
}

/// A division.
fn divide(cc: bool, word: u32) -> Instr
    ensures value { result ≡ triple (Instr.Divide cc) word }
    ensures fields { InRange result }
{
    Instr::Divide {
        cc,
        rd: fields::rd(word),
        rs1: fields::rs1(word),
        second: fields::second(word),
    }
}

/// The instruction of a word whose op is 2.
fn operation(op3: u8, word: u32) -> Instr
    ensures value { result ≡ named_by operations op3 word }
    ensures fields { InRange result }
{
    let rd = fields::rd(word);
    let rs1 = fields::rs1(word);
    let second = fields::second(word);
    match op3 {
        0x00 => alu(AluOp::Add, false, word),
        0x01 => alu(AluOp::And, false, word),
        0x02 => alu(AluOp::Or, false, word),
        0x03 => alu(AluOp::Xor, false, word),
        0x04 => alu(AluOp::Sub, false, word),
        0x05 => alu(AluOp::Andn, false, word),
        0x06 => alu(AluOp::Orn, false, word),
        0x07 => alu(AluOp::Xnor, false, word),
        0x08 => alu(AluOp::Addx, false, word),
        0x0a => multiply(false, word),
        0x0b => multiply(false, word),
        0x0c => alu(AluOp::Subx, false, word),
        0x0e => divide(false, word),
        0x0f => divide(false, word),
        0x10 => alu(AluOp::Add, true, word),
        0x11 => alu(AluOp::And, true, word),
        0x12 => alu(AluOp::Or, true, word),
        0x13 => alu(AluOp::Xor, true, word),
        0x14 => alu(AluOp::Sub, true, word),
        0x15 => alu(AluOp::Andn, true, word),
        0x16 => alu(AluOp::Orn, true, word),
        0x17 => alu(AluOp::Xnor, true, word),
        0x18 => alu(AluOp::Addx, true, word),
        0x1a => multiply(true, word),
        0x1b => multiply(true, word),
        0x1c => alu(AluOp::Subx, true, word),
        0x1e => divide(true, word),
        0x1f => divide(true, word),
        0x20 => tagged(TaggedOp::Taddcc, word),
        0x21 => tagged(TaggedOp::Tsubcc, word),
        0x22 => tagged(TaggedOp::Taddcctv, word),
        0x23 => tagged(TaggedOp::Tsubcctv, word),
        0x24 => Instr::MulStep { rd, rs1, second },
        0x25 => shift(ShiftOp::Sll, word),
        0x26 => shift(ShiftOp::Srl, word),
        0x27 => shift(ShiftOp::Sra, word),
        0x28 => Instr::ReadY { rd },
        0x30 => Instr::WriteY { rs1, second },
        0x34 => Instr::FloatOp(word),
        0x35 => Instr::FloatCmp(word),
        0x38 => Instr::Jmpl { rd, rs1, second },
        0x3a => Instr::Ticc {
            cond: fields::cond(word),
            rs1,
            second,
        },
        0x3b => Instr::Flush { rs1, second },
        0x3c => Instr::Save { rd, rs1, second },
        0x3d => Instr::Restore { rd, rs1, second },
        0x29 => Instr::Unmodelled(word),
        0x2a => Instr::Unmodelled(word),
        0x2b => Instr::Unmodelled(word),
        0x31 => Instr::Unmodelled(word),
        0x32 => Instr::Unmodelled(word),
        0x33 => Instr::Unmodelled(word),
        0x36 => Instr::Unmodelled(word),
        0x37 => Instr::Unmodelled(word),
        0x39 => Instr::Unmodelled(word),
        _ => Instr::Unknown(word),
    }
}

/// A load.
fn load(kind: LoadKind, word: u32) -> Instr
    ensures value { result ≡ triple (Instr.Load kind) word }
    ensures fields { InRange result }
{
    Instr::Load {
        kind,
        rd: fields::rd(word),
        rs1: fields::rs1(word),
        second: fields::second(word),
    }
}

/// A store.
fn store(kind: StoreKind, word: u32) -> Instr
    ensures value { result ≡ triple (Instr.Store kind) word }
    ensures fields { InRange result }
{
    Instr::Store {
        kind,
        rd: fields::rd(word),
        rs1: fields::rs1(word),
        second: fields::second(word),
    }
}

/// A load or store of the floating-point unit.
fn float(kind: FloatKind, word: u32) -> Instr
    ensures value { result ≡ triple (Instr.FloatMem kind) word }
    ensures fields { InRange result }
{
    Instr::FloatMem {
        kind,
        rd: fields::rd(word),
        rs1: fields::rs1(word),
        second: fields::second(word),
    }
}

/// A load and store in one.
fn atomic(swap: bool, word: u32) -> Instr
    ensures value { result ≡ triple (Instr.Atomic swap) word }
    ensures fields { InRange result }
{
    Instr::Atomic {
        swap,
        rd: fields::rd(word),
        rs1: fields::rs1(word),
        second: fields::second(word),
    }
}

/// The instruction of a word whose op is 3.
fn memory(op3: u8, word: u32) -> Instr
    ensures value { result ≡ named_by memory op3 word }
    ensures fields { InRange result }
{
    match op3 {
        0x00 => load(LoadKind::Ld, word),
        0x01 => load(LoadKind::Ldub, word),
        0x02 => load(LoadKind::Lduh, word),
        0x03 => load(LoadKind::Ldd, word),
        0x09 => load(LoadKind::Ldsb, word),
        0x0a => load(LoadKind::Ldsh, word),
        0x04 => store(StoreKind::St, word),
        0x05 => store(StoreKind::Stb, word),
        0x06 => store(StoreKind::Sth, word),
        0x07 => store(StoreKind::Std, word),
        0x0d => atomic(false, word),
        0x0f => atomic(true, word),
        0x20 => float(FloatKind::Ldf, word),
        0x21 => float(FloatKind::Ldfsr, word),
        0x23 => float(FloatKind::Lddf, word),
        0x24 => float(FloatKind::Stf, word),
        0x25 => float(FloatKind::Stfsr, word),
        0x27 => float(FloatKind::Stdf, word),
        0x10 => Instr::Unmodelled(word),
        0x11 => Instr::Unmodelled(word),
        0x12 => Instr::Unmodelled(word),
        0x13 => Instr::Unmodelled(word),
        0x14 => Instr::Unmodelled(word),
        0x15 => Instr::Unmodelled(word),
        0x16 => Instr::Unmodelled(word),
        0x17 => Instr::Unmodelled(word),
        0x19 => Instr::Unmodelled(word),
        0x1a => Instr::Unmodelled(word),
        0x1d => Instr::Unmodelled(word),
        0x1f => Instr::Unmodelled(word),
        0x26 => Instr::Unmodelled(word),
        0x30 => Instr::Unmodelled(word),
        0x31 => Instr::Unmodelled(word),
        0x32 => Instr::Unmodelled(word),
        0x33 => Instr::Unmodelled(word),
        0x34 => Instr::Unmodelled(word),
        0x35 => Instr::Unmodelled(word),
        0x36 => Instr::Unmodelled(word),
        0x37 => Instr::Unmodelled(word),
        _ => Instr::Unknown(word),
    }
}
