//! Operands, each appended to a text.
ghost use Rattle.std.specs.Prelude.{◌≡◌, ◌++◌, OnOk};
ghost use Rattle.sparc_text.specs.Names.{hex8_text, register, float_register, operand, offset, address, group_letter};
ghost use Rattle.sparc_text.specs.Text.{hexadecimal, memory, operands};

use bt_base::{Want, hex8, put_decimal, put_signed};
use sparc_decode::Second;

/// Appends a text.
pub fn put(out: &mut Vec<u8>, text: &str) -> Result<(), Want>
    ensures { OnOk result (out.new.items ≡ out.old.items ++ text.now) }
{
    out.extend_from_slice(text.as_bytes())?;
    Ok(())
}

/// Appends a number as eight hexadecimal digits.
#[tactic(auto, unfolding(crate::specs::Names::hex8_text))]
pub fn put_hex8(out: &mut Vec<u8>, v: u32) -> Result<(), Want>
    ensures { OnOk result (out.new.items ≡ out.old.items ++ hex8_text v) }
{
    out.extend_from_slice(&hex8(v))?;
    Ok(())
}

/// Appends a number as `0x` and eight hexadecimal digits.
pub fn put_hexadecimal(out: &mut Vec<u8>, v: u32) -> Result<(), Want>
    ensures { OnOk result (out.new.items ≡ out.old.items ++ hexadecimal v) }
{
    put(out, "0x")?;
    put_hex8(out, v)
}

/// The letter of a group of eight registers: global, out, local and in.
fn group_letter(group: u8) -> u8
    ensures { result ≡ group_letter group }
{
    match group {
        0 => b'g',
        1 => b'o',
        2 => b'l',
        _ => b'i',
    }
}

/// Appends a register, from `%g0` to `%i7`.
pub fn put_register(out: &mut Vec<u8>, r: u8) -> Result<(), Want>
    ensures { OnOk result (out.new.items ≡ out.old.items ++ register r) }
{
    out.extend_from_slice(&[b'%', group_letter(r / 8), b'0' + r % 8])?;
    Ok(())
}

/// Appends a register of the floating-point unit.
pub fn put_float_register(out: &mut Vec<u8>, f: u8) -> Result<(), Want>
    ensures { OnOk result (out.new.items ≡ out.old.items ++ float_register f) }
{
    put(out, "%f")?;
    put_decimal(out, u64::from(f))?;
    Ok(())
}

/// Appends a second operand: a register, or a number with a minus sign where it is negative.
pub fn put_operand(out: &mut Vec<u8>, second: Second) -> Result<(), Want>
    ensures { OnOk result (out.new.items ≡ out.old.items ++ operand second) }
{
    match second {
        Second::Reg(r) => put_register(out, r),
        Second::Imm(n) => put_signed(out, i64::from(n)),
    }
}

/// Appends what an address adds to its register, with its sign.
fn put_offset(out: &mut Vec<u8>, second: Second) -> Result<(), Want>
    ensures { OnOk result (out.new.items ≡ out.old.items ++ offset second) }
{
    match second {
        Second::Reg(r) => {
            put(out, "+")?;
            put_register(out, r)
        }
        Second::Imm(n) => {
            if n >= 0 {
                put(out, "+")?;
            }
            put_signed(out, i64::from(n))
        }
    }
}

/// Appends an address: a register, and what is added to it.
pub fn put_address(out: &mut Vec<u8>, rs1: u8, second: Second) -> Result<(), Want>
    ensures { OnOk result (out.new.items ≡ out.old.items ++ address rs1 second) }
{
    put_register(out, rs1)?;
    put_offset(out, second)
}

/// Appends memory at an address, in brackets.
pub fn put_memory(out: &mut Vec<u8>, rs1: u8, second: Second) -> Result<(), Want>
    ensures { OnOk result (out.new.items ≡ out.old.items ++ memory rs1 second) }
{
    put(out, "[")?;
    put_address(out, rs1, second)?;
    put(out, "]")
}

/// Appends the operands of an operation.
pub fn put_operands(out: &mut Vec<u8>, rd: u8, rs1: u8, second: Second) -> Result<(), Want>
    ensures { OnOk result (out.new.items ≡ out.old.items ++ operands rd rs1 second) }
{
    put(out, " ")?;
    put_register(out, rs1)?;
    put(out, ", ")?;
    put_operand(out, second)?;
    put(out, ", ")?;
    put_register(out, rd)
}
