ghost use Rattle.std.specs.Prelude.{◌≡◌, ◌+◌, [], ◌∷◌};
ghost use Rattle.sparc_decode.specs.Register.{bit_of, mask_of, operands, registers_read, registers_written, registers_loaded};

use crate::{Instr, LoadKind, Second, StoreKind};

/// The set of one register; of r0 and of a number that is no register it is empty.
fn bit(r: u8) -> u32
    ensures { result ≡ bit_of r }
{
    if r > 0 && r < 32 { 1 << r } else { 0 }
}

/// The set of the register behind this one.
fn bit_after(r: u8) -> u32
    ensures { result ≡ bit_of (r + 1) }
{
    if r < 31 { bit(r + 1) } else { 0 }
}

/// The registers of an address or a sum: `rs1`, and `second` where it is a register.
#[tactic(auto, using(crate::proofs::RegisterSets::sets))]
fn operands(rs1: u8, second: Second) -> u32
    ensures { result ≡ mask_of (operands rs1 second) }
{
    match second {
        Second::Reg(r) => bit(rs1) | bit(r),
        Second::Imm(_) => bit(rs1),
    }
}

/// The registers that a store reads.
fn stored(kind: StoreKind, rd: u8, rs1: u8, second: Second) -> u32
    ensures { result ≡ mask_of (registers_read (Instr.Store kind rd rs1 second)) }
{
    match kind {
        StoreKind::Std if rd % 2 == 0 => bit(rd) | (bit_after(rd) | operands(rs1, second)),
        StoreKind::Std => bit(rd) | operands(rs1, second),
        StoreKind::St => bit(rd) | operands(rs1, second),
        StoreKind::Stb => bit(rd) | operands(rs1, second),
        StoreKind::Sth => bit(rd) | operands(rs1, second),
    }
}

/// The registers that an instruction reads: bit r stands for register r, and r0 never has one.
pub fn reads(i: &Instr) -> u32
    ensures { result ≡ mask_of (registers_read i.now) }
{
    match *i {
        Instr::Alu { rs1, second, .. } => operands(rs1, second),
        Instr::Tagged { rs1, second, .. } => operands(rs1, second),
        Instr::MulStep { rs1, second, .. } => operands(rs1, second),
        Instr::Shift { rs1, second, .. } => operands(rs1, second),
        Instr::WriteY { rs1, second } => operands(rs1, second),
        Instr::Jmpl { rs1, second, .. } => operands(rs1, second),
        Instr::Flush { rs1, second } => operands(rs1, second),
        Instr::Save { rs1, second, .. } => operands(rs1, second),
        Instr::Restore { rs1, second, .. } => operands(rs1, second),
        Instr::Ticc { rs1, second, .. } => operands(rs1, second),
        Instr::Load { rs1, second, .. } => operands(rs1, second),
        Instr::Store {
            kind,
            rd,
            rs1,
            second,
        } => stored(kind, rd, rs1, second),
        Instr::Atomic {
            swap: true,
            rd,
            rs1,
            second,
        } => bit(rd) | operands(rs1, second),
        Instr::Atomic {
            swap: false,
            rs1,
            second,
            ..
        } => operands(rs1, second),
        Instr::FloatMem { rs1, second, .. } => operands(rs1, second),
        Instr::Multiply { rs1, second, .. } => operands(rs1, second),
        Instr::Divide { rs1, second, .. } => operands(rs1, second),
        _ => 0,
    }
}

/// The registers that an instruction writes: bit r stands for register r, and r0 never has one. The register
/// that SAVE and RESTORE write is one of the new window.
#[tactic(auto, using(crate::proofs::RegisterSets::sets))]
pub fn writes(i: &Instr) -> u32
    ensures { result ≡ mask_of (registers_written i.now) }
{
    match *i {
        Instr::Call { .. } => bit(15),
        Instr::Sethi { rd, .. } => bit(rd),
        Instr::Alu { rd, .. } => bit(rd),
        Instr::Tagged { rd, .. } => bit(rd),
        Instr::MulStep { rd, .. } => bit(rd),
        Instr::Shift { rd, .. } => bit(rd),
        Instr::ReadY { rd } => bit(rd),
        Instr::Jmpl { rd, .. } => bit(rd),
        Instr::Save { rd, .. } => bit(rd),
        Instr::Restore { rd, .. } => bit(rd),
        Instr::Load {
            kind: LoadKind::Ldd,
            rd,
            ..
        } => bit(rd) | bit_after(rd),
        Instr::Load { rd, .. } => bit(rd),
        Instr::Atomic { rd, .. } => bit(rd),
        Instr::Multiply { rd, .. } => bit(rd),
        Instr::Divide { rd, .. } => bit(rd),
        _ => 0,
    }
}

/// The registers that an instruction loads from memory: those that a load, LDSTUB or SWAP writes, and else none. Bit r
/// stands for register r, and r0 never has one.
pub fn loaded(i: &Instr) -> u32
    ensures { result ≡ mask_of (registers_loaded i.now) }
{
    match i {
        Instr::Load { .. } => writes(i),
        Instr::Atomic { .. } => writes(i),
        _ => 0,
    }
}
