ghost use Rattle.std.specs.Prelude.{◌≡◌, false};
ghost use Rattle.value_ops.specs.Operation.{result_of};

use crate::Op;
use word_ops::{complement, difference, product, shift_left, shift_right, shift_right_signed, sum};

/// The result of an operation on two words; the carry is 0.
pub(crate) fn compute(op: Op, x: u32, y: u32) -> u32
    ensures { result ≡ result_of op false x y }
{
    match op {
        Op::Add => sum(x, y, false),
        Op::Sub => difference(x, y, false),
        Op::And => x & y,
        Op::Or => x | y,
        Op::Xor => x ^ y,
        Op::Andn => x & complement(y),
        Op::Orn => x | complement(y),
        Op::Xnor => complement(x ^ y),
        Op::Sll => shift_left(x, y),
        Op::Srl => shift_right(x, y),
        Op::Sra => shift_right_signed(x, y),
        Op::Addx => sum(x, y, false),
        Op::Subx => difference(x, y, false),
        Op::Mul => product(x, y),
    }
}
