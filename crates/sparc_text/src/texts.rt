//! The text of an instruction, appended to a text. Where no target stands in it, it is the same at every address, and
//! contracts name it at 0.
ghost use Rattle.std.specs.Prelude.{◌≡◌, ◌++◌, ◌^◌, ◌<◌, codes, OnOk};
ghost use Rattle.sparc_decode.specs.Instr.{InRange};
ghost use Rattle.sparc_text.specs.Names.{register, float_register};
ghost use Rattle.sparc_text.specs.Text.{branch_target, call_target, operands, memory, loaded, stored, branching, branch_text, float_branch_text, call_text, float_operands, word_text, text_of};

use crate::names::{
    alu_name, condition, float_name, load_name, shift_name, store_name, tagged_name,
};
use crate::operands::{
    put, put_address, put_float_register, put_hex8, put_hexadecimal, put_memory, put_operand,
    put_operands, put_register,
};
use bt_base::{Want, put_decimal};
use sparc_decode::{AluOp, FloatKind, Instr, Second};

/// The address at a displacement of words from the instruction, modulo 2^32.
fn branch_target(at: u32, disp: i32) -> u32
    ensures { result ≡ branch_target at disp }
{
    at.wrapping_add(disp.cast_unsigned().wrapping_mul(4))
}

/// The address that a call goes to, modulo 2^32.
fn call_target(at: u32, disp: u32) -> u32
    requires { disp < 2 ^ 30 }
    ensures { result ≡ call_target at disp }
{
    at.wrapping_add(disp * 4)
}

/// Appends what follows the condition of a branch: the annul bit, and the target.
fn put_branching(out: &mut Vec<u8>, annul: bool, target: u32) -> Result<(), Want>
    ensures { OnOk result (out.new.items ≡ out.old.items ++ branching annul target) }
{
    put(out, if annul { ",a " } else { " " })?;
    put_hex8(out, target)
}

/// Appends a branch of the integer unit.
fn put_branch(out: &mut Vec<u8>, annul: bool, cond: u8, target: u32) -> Result<(), Want>
    ensures { OnOk result (out.new.items ≡ out.old.items ++ branch_text annul cond target) }
{
    put(out, "b")?;
    put(out, condition(cond))?;
    put_branching(out, annul, target)
}

/// Appends a branch of the floating-point unit.
fn put_float_branch(out: &mut Vec<u8>, annul: bool, cond: u8, target: u32) -> Result<(), Want>
    ensures { OnOk result (out.new.items ≡ out.old.items ++ float_branch_text annul cond target) }
{
    put(out, "fb")?;
    put_decimal(out, u64::from(cond))?;
    put_branching(out, annul, target)
}

/// Appends SETHI, with its field as it stands.
fn put_sethi(out: &mut Vec<u8>, rd: u8, imm: u32) -> Result<(), Want>
    ensures { OnOk result (out.new.items ≡ out.old.items ++ text_of 0 0 (Instr.Sethi rd imm)) }
{
    put(out, "sethi ")?;
    put_hexadecimal(out, imm)?;
    put(out, ", ")?;
    put_register(out, rd)
}

/// Appends an operation of the arithmetic and logical unit.
fn put_alu(
    out: &mut Vec<u8>,
    op: AluOp,
    cc: bool,
    rd: u8,
    rs1: u8,
    second: Second,
) -> Result<(), Want>
    ensures { OnOk result (out.new.items ≡ out.old.items ++ text_of 0 0 (Instr.Alu op cc rd rs1 second)) }
{
    put(out, alu_name(op))?;
    put(out, if cc { "cc" } else { "" })?;
    put_operands(out, rd, rs1, second)
}

/// Appends an operation by its name.
fn put_operation(out: &mut Vec<u8>, name: &str, rd: u8, rs1: u8, second: Second) -> Result<(), Want>
    ensures { OnOk result (out.new.items ≡ out.old.items ++ (name.now ++ operands rd rs1 second)) }
{
    put(out, name)?;
    put_operands(out, rd, rs1, second)
}

/// Appends WRY.
fn put_write_y(out: &mut Vec<u8>, rs1: u8, second: Second) -> Result<(), Want>
    ensures { OnOk result (out.new.items ≡ out.old.items ++ text_of 0 0 (Instr.WriteY rs1 second)) }
{
    put(out, "wry ")?;
    put_register(out, rs1)?;
    put(out, ", ")?;
    put_operand(out, second)
}

/// Appends JMPL.
fn put_jump(out: &mut Vec<u8>, rd: u8, rs1: u8, second: Second) -> Result<(), Want>
    ensures { OnOk result (out.new.items ≡ out.old.items ++ text_of 0 0 (Instr.Jmpl rd rs1 second)) }
{
    put(out, "jmpl ")?;
    put_address(out, rs1, second)?;
    put(out, ", ")?;
    put_register(out, rd)
}

/// Appends a trap on a condition.
fn put_trap(out: &mut Vec<u8>, cond: u8, rs1: u8, second: Second) -> Result<(), Want>
    ensures { OnOk result (out.new.items ≡ out.old.items ++ text_of 0 0 (Instr.Ticc cond rs1 second)) }
{
    put(out, "t")?;
    put(out, condition(cond))?;
    put(out, " ")?;
    put_address(out, rs1, second)
}

/// Appends a load into a register, by its name.
fn put_load(out: &mut Vec<u8>, name: &str, rd: u8, rs1: u8, second: Second) -> Result<(), Want>
    ensures { OnOk result (out.new.items ≡ out.old.items ++ (name.now ++ loaded (register rd) rs1 second)) }
{
    put(out, name)?;
    put(out, " ")?;
    put_memory(out, rs1, second)?;
    put(out, ", ")?;
    put_register(out, rd)
}

/// Appends a store of a register, by its name.
fn put_store(out: &mut Vec<u8>, name: &str, rd: u8, rs1: u8, second: Second) -> Result<(), Want>
    ensures { OnOk result (out.new.items ≡ out.old.items ++ (name.now ++ stored (register rd) rs1 second)) }
{
    put(out, name)?;
    put(out, " ")?;
    put_register(out, rd)?;
    put(out, ", ")?;
    put_memory(out, rs1, second)
}

/// Appends the operands of a load into a register of the floating-point unit.
fn put_float_loaded(out: &mut Vec<u8>, rd: u8, rs1: u8, second: Second) -> Result<(), Want>
    ensures { OnOk result (out.new.items ≡ out.old.items ++ loaded (float_register rd) rs1 second) }
{
    put(out, " ")?;
    put_memory(out, rs1, second)?;
    put(out, ", ")?;
    put_float_register(out, rd)
}

/// Appends the operands of a store of a register of the floating-point unit.
fn put_float_stored(out: &mut Vec<u8>, rd: u8, rs1: u8, second: Second) -> Result<(), Want>
    ensures { OnOk result (out.new.items ≡ out.old.items ++ stored (float_register rd) rs1 second) }
{
    put(out, " ")?;
    put_float_register(out, rd)?;
    put(out, ", ")?;
    put_memory(out, rs1, second)
}

/// Appends the operands of a load or a store of the floating-point unit's state register.
fn put_state_memory(out: &mut Vec<u8>, rs1: u8, second: Second) -> Result<(), Want>
    ensures { OnOk result (out.new.items ≡ out.old.items ++ (codes " " ++ memory rs1 second)) }
{
    put(out, " ")?;
    put_memory(out, rs1, second)
}

/// Appends the operands of a load or a store of the floating-point unit.
fn put_float_operands(
    out: &mut Vec<u8>,
    kind: FloatKind,
    rd: u8,
    rs1: u8,
    second: Second,
) -> Result<(), Want>
    ensures { OnOk result (out.new.items ≡ out.old.items ++ float_operands kind rd rs1 second) }
{
    match kind {
        FloatKind::Ldf => put_float_loaded(out, rd, rs1, second),
        FloatKind::Ldfsr => put_state_memory(out, rs1, second),
        FloatKind::Lddf => put_float_loaded(out, rd, rs1, second),
        FloatKind::Stf => put_float_stored(out, rd, rs1, second),
        FloatKind::Stfsr => put_state_memory(out, rs1, second),
        FloatKind::Stdf => put_float_stored(out, rd, rs1, second),
    }
}

/// Appends a load or a store of the floating-point unit.
fn put_float(
    out: &mut Vec<u8>,
    kind: FloatKind,
    rd: u8,
    rs1: u8,
    second: Second,
) -> Result<(), Want>
    ensures { OnOk result (out.new.items ≡ out.old.items ++ text_of 0 0 (Instr.FloatMem kind rd rs1 second)) }
{
    put(out, float_name(kind))?;
    put_float_operands(out, kind, rd, rs1, second)
}

/// Appends an instruction that isn't written by its name.
fn put_word(out: &mut Vec<u8>, word: u32) -> Result<(), Want>
    ensures { OnOk result (out.new.items ≡ out.old.items ++ word_text word) }
{
    put(out, ".word ")?;
    put_hexadecimal(out, word)
}

/// Appends a call.
fn put_call(out: &mut Vec<u8>, target: u32) -> Result<(), Want>
    ensures { OnOk result (out.new.items ≡ out.old.items ++ call_text target) }
{
    put(out, "call ")?;
    put_hex8(out, target)
}

/// Appends UNIMP.
fn put_unimp(out: &mut Vec<u8>, imm: u32) -> Result<(), Want>
    ensures { OnOk result (out.new.items ≡ out.old.items ++ text_of 0 0 (Instr.Unimp imm)) }
{
    put(out, "unimp ")?;
    put_hexadecimal(out, imm)
}

/// Appends RDY.
fn put_read_y(out: &mut Vec<u8>, rd: u8) -> Result<(), Want>
    ensures { OnOk result (out.new.items ≡ out.old.items ++ text_of 0 0 (Instr.ReadY rd)) }
{
    put(out, "rdy ")?;
    put_register(out, rd)
}

/// Appends IFLUSH.
fn put_flush(out: &mut Vec<u8>, rs1: u8, second: Second) -> Result<(), Want>
    ensures { OnOk result (out.new.items ≡ out.old.items ++ text_of 0 0 (Instr.Flush rs1 second)) }
{
    put(out, "iflush ")?;
    put_address(out, rs1, second)
}

/// Appends the text of an instruction that stands at an address, for which this word stands there.
pub fn put_instruction(
    out: &mut Vec<u8>,
    at: u32,
    word: u32,
    instruction: Instr,
) -> Result<(), Want>
    requires { InRange instruction }
    ensures { OnOk result (out.new.items ≡ out.old.items ++ text_of at word instruction) }
{
    match instruction {
        Instr::Call { disp } => put_call(out, call_target(at, disp)),
        Instr::Unimp { imm } => put_unimp(out, imm),
        Instr::Sethi { rd, imm } => put_sethi(out, rd, imm),
        Instr::Branch { annul, cond, disp } => put_branch(
            out,
            annul,
            cond,
            branch_target(at, disp),
        ),
        Instr::FloatBranch { annul, cond, disp } => put_float_branch(
            out,
            annul,
            cond,
            branch_target(at, disp),
        ),
        Instr::Alu {
            op,
            cc,
            rd,
            rs1,
            second,
        } => put_alu(out, op, cc, rd, rs1, second),
        Instr::Tagged {
            op,
            rd,
            rs1,
            second,
        } => put_operation(out, tagged_name(op), rd, rs1, second),
        Instr::MulStep { rd, rs1, second } => put_operation(out, "mulscc", rd, rs1, second),
        Instr::Shift {
            op,
            rd,
            rs1,
            second,
        } => put_operation(out, shift_name(op), rd, rs1, second),
        Instr::ReadY { rd } => put_read_y(out, rd),
        Instr::WriteY { rs1, second } => put_write_y(out, rs1, second),
        Instr::FloatOp(operation) => put_word(out, operation),
        Instr::FloatCmp(comparison) => put_word(out, comparison),
        Instr::Jmpl { rd, rs1, second } => put_jump(out, rd, rs1, second),
        Instr::Flush { rs1, second } => put_flush(out, rs1, second),
        Instr::Save { rd, rs1, second } => put_operation(out, "save", rd, rs1, second),
        Instr::Restore { rd, rs1, second } => put_operation(out, "restore", rd, rs1, second),
        Instr::Ticc { cond, rs1, second } => put_trap(out, cond, rs1, second),
        Instr::Load {
            kind,
            rd,
            rs1,
            second,
        } => put_load(out, load_name(kind), rd, rs1, second),
        Instr::Store {
            kind,
            rd,
            rs1,
            second,
        } => put_store(out, store_name(kind), rd, rs1, second),
        Instr::Atomic {
            swap,
            rd,
            rs1,
            second,
        } => put_load(out, if swap { "swap" } else { "ldstub" }, rd, rs1, second),
        Instr::FloatMem {
            kind,
            rd,
            rs1,
            second,
        } => put_float(out, kind, rd, rs1, second),
        Instr::Unmodelled(other) => put_word(out, other),
        Instr::Unknown(other) => put_word(out, other),
        Instr::Multiply { .. } => put_word(out, word),
        Instr::Divide { .. } => put_word(out, word),
    }
}
