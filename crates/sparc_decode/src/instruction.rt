/// The second operand of an instruction: a register, or a number from -4096 to 4095.
#[derive(Clone, Copy, Debug, PartialEq, Eq)]
pub enum Second {
    Reg(u8),
    Imm(i32),
}

/// The operations of the arithmetic and logical unit.
#[derive(Clone, Copy, Debug, PartialEq, Eq)]
pub enum AluOp {
    Add,
    And,
    Or,
    Xor,
    Sub,
    Andn,
    Orn,
    Xnor,
    Addx,
    Subx,
}

/// The tagged operations. Those with `tv` trap on overflow.
#[derive(Clone, Copy, Debug, PartialEq, Eq)]
pub enum TaggedOp {
    Taddcc,
    Tsubcc,
    Taddcctv,
    Tsubcctv,
}

/// The shifts: left, right with zeros, and right with the sign.
#[derive(Clone, Copy, Debug, PartialEq, Eq)]
pub enum ShiftOp {
    Sll,
    Srl,
    Sra,
}

/// The loads: a word, a byte or a halfword without sign, a double word, a byte or a halfword with sign.
#[derive(Clone, Copy, Debug, PartialEq, Eq)]
pub enum LoadKind {
    Ld,
    Ldub,
    Lduh,
    Ldd,
    Ldsb,
    Ldsh,
}

/// The stores: a word, a byte, a halfword and a double word.
#[derive(Clone, Copy, Debug, PartialEq, Eq)]
pub enum StoreKind {
    St,
    Stb,
    Sth,
    Std,
}

/// The loads and stores of the floating-point unit: a register, its state register and a double register.
#[derive(Clone, Copy, Debug, PartialEq, Eq)]
pub enum FloatKind {
    Ldf,
    Ldfsr,
    Lddf,
    Stf,
    Stfsr,
    Stdf,
}

/// An instruction. Registers are numbers below 32, and conditions numbers below 16; displacements count
/// words from the instruction's own address on.
#[derive(Clone, Copy, Debug, PartialEq, Eq)]
pub enum Instr {
    /// Calls the subprogram at a displacement of 30 bits, and leaves its own address in r15.
    Call {
        disp: u32,
    },
    /// An illegal instruction by definition.
    Unimp {
        imm: u32,
    },
    /// Sets the high 22 bits of `rd` to `imm`, and its low ten to 0.
    Sethi {
        rd: u8,
        imm: u32,
    },
    /// Branches where a condition of the integer unit holds.
    Branch {
        annul: bool,
        cond: u8,
        disp: i32,
    },
    /// Branches where a condition of the floating-point unit holds.
    FloatBranch {
        annul: bool,
        cond: u8,
        disp: i32,
    },
    /// An operation over `rs1` and `second` into `rd`; with `cc` it sets the condition codes.
    Alu {
        op: AluOp,
        cc: bool,
        rd: u8,
        rs1: u8,
        second: Second,
    },
    /// A tagged sum or difference.
    Tagged {
        op: TaggedOp,
        rd: u8,
        rs1: u8,
        second: Second,
    },
    /// One step of a multiplication.
    MulStep {
        rd: u8,
        rs1: u8,
        second: Second,
    },
    /// Shifts `rs1` by `second` into `rd`.
    Shift {
        op: ShiftOp,
        rd: u8,
        rs1: u8,
        second: Second,
    },
    /// Reads the Y register.
    ReadY {
        rd: u8,
    },
    /// Writes the Y register.
    WriteY {
        rs1: u8,
        second: Second,
    },
    /// An operation of the floating-point unit.
    FloatOp(u32),
    /// A comparison of the floating-point unit.
    FloatCmp(u32),
    /// Jumps to `rs1` + `second`, and leaves its own address in `rd`.
    Jmpl {
        rd: u8,
        rs1: u8,
        second: Second,
    },
    /// Flushes a word of the instruction memory.
    Flush {
        rs1: u8,
        second: Second,
    },
    /// Goes to the next window, and writes the sum into its `rd`.
    Save {
        rd: u8,
        rs1: u8,
        second: Second,
    },
    /// Goes back to the window before, and writes the sum into its `rd`.
    Restore {
        rd: u8,
        rs1: u8,
        second: Second,
    },
    /// Traps where a condition of the integer unit holds.
    Ticc {
        cond: u8,
        rs1: u8,
        second: Second,
    },
    /// Loads from `rs1` + `second` into `rd`.
    Load {
        kind: LoadKind,
        rd: u8,
        rs1: u8,
        second: Second,
    },
    /// Stores `rd` at `rs1` + `second`.
    Store {
        kind: StoreKind,
        rd: u8,
        rs1: u8,
        second: Second,
    },
    /// Loads from `rs1` + `second` into `rd` and stores there in one: the old `rd` with `swap`, else a byte of ones.
    Atomic {
        swap: bool,
        rd: u8,
        rs1: u8,
        second: Second,
    },
    /// Loads or stores a register of the floating-point unit.
    FloatMem {
        kind: FloatKind,
        rd: u8,
        rs1: u8,
        second: Second,
    },
    /// An instruction of the manual that isn't modelled.
    Unmodelled(u32),
    /// A word that stands for no instruction.
    Unknown(u32),
    /// Multiplies `rs1` and `second` into `rd`, an instruction of SPARC Version 8; with `cc` it sets the condition
    /// codes.
    Multiply {
        cc: bool,
        rd: u8,
        rs1: u8,
        second: Second,
    },
    /// Divides by `second` into `rd`, an instruction of SPARC Version 8; with `cc` it sets the condition codes.
    Divide {
        cc: bool,
        rd: u8,
        rs1: u8,
        second: Second,
    },
}
