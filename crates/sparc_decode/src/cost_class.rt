ghost use Rattle.std.specs.Prelude.{◌≡◌};
ghost use Rattle.sparc_decode.specs.CostClass.{class_of, float_class_of};

use crate::{FloatKind, Instr, LoadKind, StoreKind};

/// The classes of instructions that a table of cycles tells apart, in its order, and last those that aren't
/// charged.
#[derive(Clone, Copy, Debug, PartialEq, Eq)]
pub enum CostClass {
    /// Operations of the arithmetic and logical unit.
    Alu,
    /// Shifts.
    Shift,
    /// SETHI.
    Sethi,
    /// Tagged operations.
    Tagged,
    /// Steps of a multiplication.
    Mulscc,
    /// SAVE.
    Save,
    /// RESTORE.
    Restore,
    /// Branches on integer conditions.
    Branch,
    /// Branches on floating-point conditions.
    Floatbranch,
    /// CALL.
    Call,
    /// JMPL.
    Jump,
    /// Loads of a word, a halfword or a byte.
    Load,
    /// Loads of a double word.
    Loaddouble,
    /// Stores of a word, a halfword or a byte.
    Store,
    /// Stores of a double word.
    Storedouble,
    /// LDSTUB and SWAP.
    Atomic,
    /// Reads of the Y register.
    Ready,
    /// Writes of the Y register.
    Writey,
    /// Flushes of instruction memory.
    Flush,
    /// Operations of the floating-point unit.
    Floatop,
    /// Comparisons of the floating-point unit.
    Floatcmp,
    /// Loads of a floating-point register or of the state register.
    Floatload,
    /// Loads of a double floating-point register.
    Floatloaddouble,
    /// Stores of a floating-point register or of the state register.
    Floatstore,
    /// Stores of a double floating-point register.
    Floatstoredouble,
    /// Traps on a condition.
    Trap,
    /// Instructions that a branch annuls.
    Annulled,
    /// Uses of a register right behind its load.
    Loaduse,
    /// Multiplications.
    Multiply,
    /// Divisions.
    Divide,
    /// Instructions that aren't modelled.
    Unmodelled,
}

/// The class of an instruction. No instruction is `Annulled`, since a branch annuls any of them, and none is `Loaduse`,
/// which is charged to any that uses what the one before it loads.
pub fn class(i: &Instr) -> CostClass
    ensures { result ≡ class_of i.now }
{
    match i {
        Instr::Call { .. } => CostClass::Call,
        Instr::Sethi { .. } => CostClass::Sethi,
        Instr::Branch { .. } => CostClass::Branch,
        Instr::FloatBranch { .. } => CostClass::Floatbranch,
        Instr::Alu { .. } => CostClass::Alu,
        Instr::Tagged { .. } => CostClass::Tagged,
        Instr::MulStep { .. } => CostClass::Mulscc,
        Instr::Shift { .. } => CostClass::Shift,
        Instr::ReadY { .. } => CostClass::Ready,
        Instr::WriteY { .. } => CostClass::Writey,
        Instr::FloatOp(_) => CostClass::Floatop,
        Instr::FloatCmp(_) => CostClass::Floatcmp,
        Instr::Jmpl { .. } => CostClass::Jump,
        Instr::Flush { .. } => CostClass::Flush,
        Instr::Save { .. } => CostClass::Save,
        Instr::Restore { .. } => CostClass::Restore,
        Instr::Ticc { .. } => CostClass::Trap,
        Instr::Load {
            kind: LoadKind::Ldd,
            ..
        } => CostClass::Loaddouble,
        Instr::Load { .. } => CostClass::Load,
        Instr::Store {
            kind: StoreKind::Std,
            ..
        } => CostClass::Storedouble,
        Instr::Store { .. } => CostClass::Store,
        Instr::Atomic { .. } => CostClass::Atomic,
        Instr::FloatMem { kind, .. } => float_class(*kind),
        Instr::Unimp { .. } => CostClass::Unmodelled,
        Instr::Unmodelled(_) => CostClass::Unmodelled,
        Instr::Unknown(_) => CostClass::Unmodelled,
        Instr::Multiply { .. } => CostClass::Multiply,
        Instr::Divide { .. } => CostClass::Divide,
    }
}

/// The class of a floating-point load or store.
fn float_class(kind: FloatKind) -> CostClass
    ensures { result ≡ float_class_of kind }
{
    match kind {
        FloatKind::Ldf => CostClass::Floatload,
        FloatKind::Ldfsr => CostClass::Floatload,
        FloatKind::Lddf => CostClass::Floatloaddouble,
        FloatKind::Stf => CostClass::Floatstore,
        FloatKind::Stfsr => CostClass::Floatstore,
        FloatKind::Stdf => CostClass::Floatstoredouble,
    }
}
