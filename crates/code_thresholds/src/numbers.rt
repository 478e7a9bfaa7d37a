//! The numbers of an instruction and of an assertion, put behind others.
ghost use Rattle.std.specs.Prelude.{◌≡◌, ◌∷◌, ◌++◌, OnOk};
ghost use Rattle.sparc_decode.specs.Instr.{InRange};
ghost use Rattle.sparc_decode.specs.Word.{IsSigned};
ghost use Rattle.code_thresholds.specs.Number.{above, below, numbers_asserted, numbers_of, numbers_said, numbers_with};

use assert_bind::{BoundAssertion, BoundBody};
use bt_base::Want;
use sparc_decode::{AluOp, Instr, Second};

/// Those of a comparison.
fn push_compared(list: &mut Vec<i32>, cc: bool, n: i32) -> Result<(), Want>
    requires { IsSigned n 13 }
    ensures { OnOk result (list.new.items ≡ list.old.items ++ numbers_with AluOp.Sub cc n) }
{
    if cc {
        list.push(n - 1)?;
        list.push(n)?;
        list.push(n + 1)?;
    }
    Ok(())
}

/// Those of an operation with a number.
fn push_with(list: &mut Vec<i32>, op: AluOp, cc: bool, n: i32) -> Result<(), Want>
    requires { IsSigned n 13 }
    ensures { OnOk result (list.new.items ≡ list.old.items ++ numbers_with op cc n) }
{
    match op {
        AluOp::Sub => push_compared(list, cc, n),
        AluOp::And => {
            if 0 <= n {
                list.push(n)?;
            }
            Ok(())
        }
        AluOp::Add => Ok(()),
        AluOp::Or => Ok(()),
        AluOp::Xor => Ok(()),
        AluOp::Andn => Ok(()),
        AluOp::Orn => Ok(()),
        AluOp::Xnor => Ok(()),
        AluOp::Addx => Ok(()),
        AluOp::Subx => Ok(()),
    }
}

/// Those of an instruction.
pub fn push_numbers(list: &mut Vec<i32>, i: Instr) -> Result<(), Want>
    requires { InRange i }
    ensures { OnOk result (list.new.items ≡ list.old.items ++ numbers_of i) }
{
    match i {
        Instr::Alu {
            op,
            cc,
            second: Second::Imm(n),
            ..
        } => push_with(list, op, cc, n),
        _ => Ok(()),
    }
}

/// The number below the least of a range.
fn push_below(list: &mut Vec<i32>, lo: i32) -> Result<(), Want>
    ensures { OnOk result (list.new.items ≡ list.old.items ++ below lo) }
{
    if lo > i32::MIN {
        list.push(lo - 1)?;
    }
    Ok(())
}

/// The number above the greatest of a range.
fn push_above(list: &mut Vec<i32>, hi: i32) -> Result<(), Want>
    ensures { OnOk result (list.new.items ≡ list.old.items ++ above hi) }
{
    if hi < i32::MAX {
        list.push(hi + 1)?;
    }
    Ok(())
}

/// Those of a range.
fn push_range(list: &mut Vec<i32>, lo: i32, hi: i32) -> Result<(), Want>
    ensures { OnOk result (list.new.items ≡ list.old.items ++ (below lo ++ lo ∷ hi ∷ above hi)) }
{
    push_below(list, lo)?;
    list.push(lo)?;
    list.push(hi)?;
    push_above(list, hi)
}

/// Those of an assertion.
fn push_said(list: &mut Vec<i32>, says: &BoundBody) -> Result<(), Want>
    ensures { OnOk result (list.new.items ≡ list.old.items ++ numbers_said says.now) }
{
    match says {
        BoundBody::At { lo, hi, .. } => push_range(list, *lo, *hi),
        _ => Ok(()),
    }
}

/// Those of all assertions.
pub fn push_asserted(list: &mut Vec<i32>, assertions: &[BoundAssertion]) -> Result<(), Want>
    ensures { OnOk result (list.new.items ≡ list.old.items ++ numbers_asserted assertions.now) }
{
    for assertion in assertions {
        push_said(list, &assertion.body)?;
    }
    Ok(())
}
