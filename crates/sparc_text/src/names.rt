//! The names of operations, kinds and conditions.
ghost use Rattle.std.specs.Prelude.{◌≡◌, ◌<◌};
ghost use Rattle.sparc_text.specs.Names.{condition, first_condition, negated_condition, alu_name, tagged_name, shift_name, load_name, store_name, float_name};

use sparc_decode::{AluOp, FloatKind, LoadKind, ShiftOp, StoreKind, TaggedOp};

/// The first eight conditions of the integer unit.
fn first_condition(cond: u8) -> &'static str
    requires { cond < 8 }
    ensures { result.now ≡ first_condition cond }
{
    match cond {
        0 => "n",
        1 => "e",
        2 => "le",
        3 => "l",
        4 => "leu",
        5 => "cs",
        6 => "neg",
        _ => "vs",
    }
}

/// Their negations, in the same order.
fn negated_condition(cond: u8) -> &'static str
    ensures { result.now ≡ negated_condition cond }
{
    match cond {
        8 => "a",
        9 => "ne",
        10 => "g",
        11 => "ge",
        12 => "gu",
        13 => "cc",
        14 => "pos",
        _ => "vc",
    }
}

/// A condition of the integer unit.
pub fn condition(cond: u8) -> &'static str
    ensures { result.now ≡ condition cond }
{
    if cond < 8 {
        first_condition(cond)
    } else {
        negated_condition(cond)
    }
}

/// An operation of the arithmetic and logical unit.
pub fn alu_name(op: AluOp) -> &'static str
    ensures { result.now ≡ alu_name op }
{
    match op {
        AluOp::Add => "add",
        AluOp::And => "and",
        AluOp::Or => "or",
        AluOp::Xor => "xor",
        AluOp::Sub => "sub",
        AluOp::Andn => "andn",
        AluOp::Orn => "orn",
        AluOp::Xnor => "xnor",
        AluOp::Addx => "addx",
        AluOp::Subx => "subx",
    }
}

/// A tagged operation.
pub fn tagged_name(op: TaggedOp) -> &'static str
    ensures { result.now ≡ tagged_name op }
{
    match op {
        TaggedOp::Taddcc => "taddcc",
        TaggedOp::Tsubcc => "tsubcc",
        TaggedOp::Taddcctv => "taddcctv",
        TaggedOp::Tsubcctv => "tsubcctv",
    }
}

/// A shift.
pub fn shift_name(op: ShiftOp) -> &'static str
    ensures { result.now ≡ shift_name op }
{
    match op {
        ShiftOp::Sll => "sll",
        ShiftOp::Srl => "srl",
        ShiftOp::Sra => "sra",
    }
}

/// A load.
pub fn load_name(kind: LoadKind) -> &'static str
    ensures { result.now ≡ load_name kind }
{
    match kind {
        LoadKind::Ld => "ld",
        LoadKind::Ldub => "ldub",
        LoadKind::Lduh => "lduh",
        LoadKind::Ldd => "ldd",
        LoadKind::Ldsb => "ldsb",
        LoadKind::Ldsh => "ldsh",
    }
}

/// A store.
pub fn store_name(kind: StoreKind) -> &'static str
    ensures { result.now ≡ store_name kind }
{
    match kind {
        StoreKind::St => "st",
        StoreKind::Stb => "stb",
        StoreKind::Sth => "sth",
        StoreKind::Std => "std",
    }
}

/// A load or a store of the floating-point unit.
pub fn float_name(kind: FloatKind) -> &'static str
    ensures { result.now ≡ float_name kind }
{
    match kind {
        FloatKind::Ldf => "ldf",
        FloatKind::Ldfsr => "ldfsr",
        FloatKind::Lddf => "lddf",
        FloatKind::Stf => "stf",
        FloatKind::Stfsr => "stfsr",
        FloatKind::Stdf => "stdf",
    }
}
