/// An operation on two words, and for `Addx` and `Subx` on the carry.
#[derive(Clone, Copy, Debug, PartialEq, Eq)]
pub enum Op {
    Add,
    Sub,
    And,
    Or,
    Xor,
    Andn,
    Orn,
    Xnor,
    /// Shifts left by the low five bits of the right side; the next two shift right.
    Sll,
    Srl,
    /// Shifts right, and the sign comes in.
    Sra,
    /// Adds the carry too.
    Addx,
    /// Subtracts the carry too.
    Subx,
    /// The low 32 bits of the product.
    Mul,
}
