//! Words and the instructions that they stand for, with the registers that these read, write and load, and their
//! classes.
use sparc_decode::*;

const THIRD: Second = Second::Reg(3);

/// The numbers op3 of op 2 with their operation, and whether it sets the condition codes.
#[rattlefmt::skip]
const OPERATIONS: [(u32, AluOp, bool); 20] = [
    (0x00, AluOp::Add, false),
    (0x01, AluOp::And, false),
    (0x02, AluOp::Or, false),
    (0x03, AluOp::Xor, false),
    (0x04, AluOp::Sub, false),
    (0x05, AluOp::Andn, false),
    (0x06, AluOp::Orn, false),
    (0x07, AluOp::Xnor, false),
    (0x08, AluOp::Addx, false),
    (0x0c, AluOp::Subx, false),
    (0x10, AluOp::Add, true),
    (0x11, AluOp::And, true),
    (0x12, AluOp::Or, true),
    (0x13, AluOp::Xor, true),
    (0x14, AluOp::Sub, true),
    (0x15, AluOp::Andn, true),
    (0x16, AluOp::Orn, true),
    (0x17, AluOp::Xnor, true),
    (0x18, AluOp::Addx, true),
    (0x1c, AluOp::Subx, true),
];

/// Other words of op 2; most have rd 1, rs1 2 and the second operand r3.
#[rattlefmt::skip]
const WORDS: [(u32, Instr); 21] = [
    (0x8300_8003, Instr::Tagged { op: TaggedOp::Taddcc, rd: 1, rs1: 2, second: THIRD }),
    (0x8308_8003, Instr::Tagged { op: TaggedOp::Tsubcc, rd: 1, rs1: 2, second: THIRD }),
    (0x8310_8003, Instr::Tagged { op: TaggedOp::Taddcctv, rd: 1, rs1: 2, second: THIRD }),
    (0x8318_8003, Instr::Tagged { op: TaggedOp::Tsubcctv, rd: 1, rs1: 2, second: THIRD }),
    (0x8320_8003, Instr::MulStep { rd: 1, rs1: 2, second: THIRD }),
    (0x8328_8003, Instr::Shift { op: ShiftOp::Sll, rd: 1, rs1: 2, second: THIRD }),
    (0x8330_8003, Instr::Shift { op: ShiftOp::Srl, rd: 1, rs1: 2, second: THIRD }),
    (0x8338_8003, Instr::Shift { op: ShiftOp::Sra, rd: 1, rs1: 2, second: THIRD }),
    (0x8340_0000, Instr::ReadY { rd: 1 }),
    (0x8180_8003, Instr::WriteY { rs1: 2, second: THIRD }),
    (0x83a0_0843, Instr::FloatOp(0x83a0_0843)),
    (0x81a8_8a23, Instr::FloatCmp(0x81a8_8a23)),
    (0x83c0_8003, Instr::Jmpl { rd: 1, rs1: 2, second: THIRD }),
    (0x91d0_2003, Instr::Ticc { cond: 8, rs1: 0, second: Second::Imm(3) }),
    (0x81d8_8003, Instr::Flush { rs1: 2, second: THIRD }),
    (0x9de3_bfa0, Instr::Save { rd: 14, rs1: 14, second: Second::Imm(-96) }),
    (0x83e8_8003, Instr::Restore { rd: 1, rs1: 2, second: THIRD }),
    (0x9002_3fff, Instr::Alu { op: AluOp::Add, cc: false, rd: 8, rs1: 8, second: Second::Imm(-1) }),
    (0x9002_2fff, Instr::Alu { op: AluOp::Add, cc: false, rd: 8, rs1: 8, second: Second::Imm(4095) }),
    (0x9002_3000, Instr::Alu { op: AluOp::Add, cc: false, rd: 8, rs1: 8, second: Second::Imm(-4096) }),
    (0x9002_1fe9, Instr::Alu { op: AluOp::Add, cc: false, rd: 8, rs1: 8, second: Second::Reg(9) }),
];

/// An operation with rd 1, rs1 2 and the second operand r3.
fn operation(op: AluOp, cc: bool) -> Instr {
    Instr::Alu {
        op,
        cc,
        rd: 1,
        rs1: 2,
        second: THIRD,
    }
}

/// The words of op 2.
#[test]
fn decodes_operations(rt: HostRuntime) {
    for (op3, op, cc) in &OPERATIONS {
        let got = decode(0x8200_8003 | *op3 << 19);
        assert!(rt; got == operation(*op, *cc), "at op3 {op3:02x}");
    }
    for (word, want) in &WORDS {
        assert!(rt; decode(*word) == *want, "at {word:08x}");
    }
}

/// The numbers op3 of multiplications and divisions of Version 8, whether they divide, and whether they set the
/// condition codes.
const VERSION_8: [(u32, bool, bool); 8] = [
    (0x0a, false, false),
    (0x0b, false, false),
    (0x1a, false, true),
    (0x1b, false, true),
    (0x0e, true, false),
    (0x0f, true, false),
    (0x1e, true, true),
    (0x1f, true, true),
];

/// A multiplication or a division with rd 1, rs1 2 and the second operand r3.
fn of_version_8(divides: bool, cc: bool) -> Instr {
    let (rd, rs1, second) = (1, 2, THIRD);
    if divides {
        Instr::Divide {
            cc,
            rd,
            rs1,
            second,
        }
    } else {
        Instr::Multiply {
            cc,
            rd,
            rs1,
            second,
        }
    }
}

#[test]
fn decodes_multiplications(rt: HostRuntime) {
    for (op3, divides, cc) in &VERSION_8 {
        let got = decode(0x8200_8003 | *op3 << 19);
        assert!(rt; got == of_version_8(*divides, *cc), "at op3 {op3:02x}");
    }
}

/// The numbers op3 of op 3 with what they stand for, with rd 1, rs1 2 and the second operand r3.
#[rattlefmt::skip]
const MEMORY: [(u32, Instr); 18] = [
    (0x00, Instr::Load { kind: LoadKind::Ld, rd: 1, rs1: 2, second: THIRD }),
    (0x01, Instr::Load { kind: LoadKind::Ldub, rd: 1, rs1: 2, second: THIRD }),
    (0x02, Instr::Load { kind: LoadKind::Lduh, rd: 1, rs1: 2, second: THIRD }),
    (0x03, Instr::Load { kind: LoadKind::Ldd, rd: 1, rs1: 2, second: THIRD }),
    (0x04, Instr::Store { kind: StoreKind::St, rd: 1, rs1: 2, second: THIRD }),
    (0x05, Instr::Store { kind: StoreKind::Stb, rd: 1, rs1: 2, second: THIRD }),
    (0x06, Instr::Store { kind: StoreKind::Sth, rd: 1, rs1: 2, second: THIRD }),
    (0x07, Instr::Store { kind: StoreKind::Std, rd: 1, rs1: 2, second: THIRD }),
    (0x09, Instr::Load { kind: LoadKind::Ldsb, rd: 1, rs1: 2, second: THIRD }),
    (0x0a, Instr::Load { kind: LoadKind::Ldsh, rd: 1, rs1: 2, second: THIRD }),
    (0x0d, Instr::Atomic { swap: false, rd: 1, rs1: 2, second: THIRD }),
    (0x0f, Instr::Atomic { swap: true, rd: 1, rs1: 2, second: THIRD }),
    (0x20, Instr::FloatMem { kind: FloatKind::Ldf, rd: 1, rs1: 2, second: THIRD }),
    (0x21, Instr::FloatMem { kind: FloatKind::Ldfsr, rd: 1, rs1: 2, second: THIRD }),
    (0x23, Instr::FloatMem { kind: FloatKind::Lddf, rd: 1, rs1: 2, second: THIRD }),
    (0x24, Instr::FloatMem { kind: FloatKind::Stf, rd: 1, rs1: 2, second: THIRD }),
    (0x25, Instr::FloatMem { kind: FloatKind::Stfsr, rd: 1, rs1: 2, second: THIRD }),
    (0x27, Instr::FloatMem { kind: FloatKind::Stdf, rd: 1, rs1: 2, second: THIRD }),
];

/// Words of op 0 and 1.
#[rattlefmt::skip]
const BRANCHES: [(u32, Instr); 11] = [
    (0x0000_0000, Instr::Unimp { imm: 0 }),
    (0x003f_ffff, Instr::Unimp { imm: 0x003f_ffff }),
    (0x12bf_fffe, Instr::Branch { annul: false, cond: 9, disp: -2 }),
    (0x3080_0003, Instr::Branch { annul: true, cond: 8, disp: 3 }),
    (0x10a0_0000, Instr::Branch { annul: false, cond: 8, disp: -0x0020_0000 }),
    (0x109f_ffff, Instr::Branch { annul: false, cond: 8, disp: 0x001f_ffff }),
    (0x33bf_ffff, Instr::FloatBranch { annul: true, cond: 9, disp: -1 }),
    (0x1100_0001, Instr::Sethi { rd: 8, imm: 1 }),
    (0x0100_0000, Instr::Sethi { rd: 0, imm: 0 }),
    (0x7fff_ffff, Instr::Call { disp: 0x3fff_ffff }),
    (0x4000_0002, Instr::Call { disp: 2 }),
];

/// The words of op 3, and those of op 0 and 1.
#[test]
fn decodes_memory_and_branches(rt: HostRuntime) {
    for (op3, want) in &MEMORY {
        assert!(rt;
            decode(0xc200_8003 | *op3 << 19) == *want,
            "at op3 {op3:02x}"
        );
    }
    for (word, want) in &BRANCHES {
        assert!(rt; decode(*word) == *want, "at {word:08x}");
    }
}

/// The numbers op3 of op 2 that the manual leaves open.
const OPEN: [u32; 10] = [0x09, 0x0d, 0x19, 0x1d, 0x2c, 0x2d, 0x2e, 0x2f, 0x3e, 0x3f];

/// The numbers op3 of op 2 whose instructions aren't modelled.
const UNMODELLED: [u32; 9] = [0x29, 0x2a, 0x2b, 0x31, 0x32, 0x33, 0x36, 0x37, 0x39];

/// The numbers op3 of op 3 that the manual leaves open.
const OPEN_MEMORY: [u32; 25] = [
    0x08, 0x0b, 0x0c, 0x0e, 0x18, 0x1b, 0x1c, 0x1e, 0x22, 0x28, 0x29, 0x2a, 0x2b, 0x2c, 0x2d, 0x2e,
    0x2f, 0x38, 0x39, 0x3a, 0x3b, 0x3c, 0x3d, 0x3e, 0x3f,
];

/// The numbers op3 of op 3 whose instructions aren't modelled.
const UNMODELLED_MEMORY: [u32; 21] = [
    0x10, 0x11, 0x12, 0x13, 0x14, 0x15, 0x16, 0x17, 0x19, 0x1a, 0x1d, 0x1f, 0x26, 0x30, 0x31, 0x32,
    0x33, 0x34, 0x35, 0x36, 0x37,
];

/// The first of these numbers op3, in a word, that is decoded as something else than an open word or one that isn't modelled.
fn first_known(word: u32, numbers: &[u32], open: bool) -> Option<u32> {
    for op3 in numbers {
        let word = word | *op3 << 19;
        let want = if open {
            Instr::Unknown(word)
        } else {
            Instr::Unmodelled(word)
        };
        if decode(word) != want {
            return Some(*op3);
        }
    }
    None
}

/// Every selector that the manual leaves open, and every one whose instruction isn't modelled.
#[test]
fn leaves_others_open(rt: HostRuntime) {
    for word in &[0x0040_0000, 0x00c0_0000, 0x0140_0000] {
        assert!(rt; decode(*word) == Instr::Unknown(*word), "at {word:08x}");
    }
    assert!(rt; decode(0x01c0_0000) == Instr::Unmodelled(0x01c0_0000));
    assert_eq!(rt; first_known(0x8200_8003, &OPEN, true), None);
    assert_eq!(rt; first_known(0x8200_8003, &UNMODELLED, false), None);
    assert_eq!(rt; first_known(0xc200_8003, &OPEN_MEMORY, true), None);
    assert_eq!(rt; first_known(0xc200_8003, &UNMODELLED_MEMORY, false), None);
}

/// Words, the sets of registers that they read and write, as numbers, and their class.
const SETS: [(u32, u32, u32, CostClass); 41] = [
    (0x4000_0002, 0x0000, 0x8000, CostClass::Call),
    (0x0000_0000, 0x0000, 0x0000, CostClass::Unmodelled),
    (0x1100_0001, 0x0000, 0x0100, CostClass::Sethi),
    (0x0100_0000, 0x0000, 0x0000, CostClass::Sethi),
    (0x12bf_fffe, 0x0000, 0x0000, CostClass::Branch),
    (0x33bf_ffff, 0x0000, 0x0000, CostClass::Floatbranch),
    (0x8200_8003, 0x000c, 0x0002, CostClass::Alu),
    (0x8200_a003, 0x0004, 0x0002, CostClass::Alu),
    (0x8200_0000, 0x0000, 0x0002, CostClass::Alu),
    (0x8300_8003, 0x000c, 0x0002, CostClass::Tagged),
    (0x8320_8003, 0x000c, 0x0002, CostClass::Mulscc),
    (0x8328_8003, 0x000c, 0x0002, CostClass::Shift),
    (0x8340_0000, 0x0000, 0x0002, CostClass::Ready),
    (0x8180_8003, 0x000c, 0x0000, CostClass::Writey),
    (0x83a0_0843, 0x0000, 0x0000, CostClass::Floatop),
    (0x81a8_8a23, 0x0000, 0x0000, CostClass::Floatcmp),
    (0x83c0_8003, 0x000c, 0x0002, CostClass::Jump),
    (0x91d0_8003, 0x000c, 0x0000, CostClass::Trap),
    (0x81d8_8003, 0x000c, 0x0000, CostClass::Flush),
    (0x83e0_8003, 0x000c, 0x0002, CostClass::Save),
    (0x83e8_8003, 0x000c, 0x0002, CostClass::Restore),
    (0xc200_8003, 0x000c, 0x0002, CostClass::Load),
    (0xc000_8003, 0x000c, 0x0000, CostClass::Load),
    (0xc418_8003, 0x000c, 0x000c, CostClass::Loaddouble),
    (0xc018_8003, 0x000c, 0x0002, CostClass::Loaddouble),
    (0xfe18_8003, 0x000c, 0x8000_0000, CostClass::Loaddouble),
    (0xc220_8003, 0x000e, 0x0000, CostClass::Store),
    (0xc228_8003, 0x000e, 0x0000, CostClass::Store),
    (0xc838_8003, 0x003c, 0x0000, CostClass::Storedouble),
    (0xca38_8003, 0x002c, 0x0000, CostClass::Storedouble),
    (0xc268_8003, 0x000c, 0x0002, CostClass::Atomic),
    (0xc278_8003, 0x000e, 0x0002, CostClass::Atomic),
    (0xc300_8003, 0x000c, 0x0000, CostClass::Floatload),
    (0xc318_8003, 0x000c, 0x0000, CostClass::Floatloaddouble),
    (0xc320_8003, 0x000c, 0x0000, CostClass::Floatstore),
    (0xc338_8003, 0x000c, 0x0000, CostClass::Floatstoredouble),
    (0xc280_8003, 0x0000, 0x0000, CostClass::Unmodelled),
    (0x8250_8003, 0x000c, 0x0002, CostClass::Multiply),
    (0x82d8_a003, 0x0004, 0x0002, CostClass::Multiply),
    (0x8270_8003, 0x000c, 0x0002, CostClass::Divide),
    (0x80f8_8003, 0x000c, 0x0000, CostClass::Divide),
];

/// Whether a word reads and writes these registers and is of this class.
fn is_of(word: u32, read: u32, written: u32, want: CostClass) -> bool {
    let i = decode(word);
    reads(&i) == read && writes(&i) == written && class(&i) == want
}

/// The sets of registers, and the class of a word.
#[test]
fn names_registers_and_classes(rt: HostRuntime) {
    for (word, read, written, want) in &SETS {
        assert!(rt; is_of(*word, *read, *written, *want), "at {word:08x}");
    }
}

/// Words, and the set of registers that they load from memory, as a number.
const LOADED: [(u32, u32); 12] = [
    (0xc202_2000, 0x0000_0002),
    (0xc002_2000, 0x0000_0000),
    (0xc20a_2000, 0x0000_0002),
    (0xd41c_0000, 0x0000_0c00),
    (0xfe18_8003, 0x8000_0000),
    (0xd26a_2000, 0x0000_0200),
    (0xd27a_3ffc, 0x0000_0200),
    (0xc222_400a, 0x0000_0000),
    (0xc302_0000, 0x0000_0000),
    (0x8200_8003, 0x0000_0000),
    (0x8250_8003, 0x0000_0000),
    (0x4000_0002, 0x0000_0000),
];

/// What instructions load from memory.
#[test]
fn names_loaded_registers(rt: HostRuntime) {
    for (word, want) in &LOADED {
        assert!(rt; loaded(&decode(*word)) == *want, "loaded of {word:08x}");
    }
}
