//! Instructions as steps over cells.
ghost use Rattle.std.specs.Prelude.{◌≡◌, ◌<◌, false};
ghost use Rattle.sparc_decode.specs.Instr.{AreOperands, IsOperand};
ghost use Rattle.sparc_machine.specs.Effect.{is_odd_double_load};
ghost use Rattle.transfer_acts.specs.Step.{applied, found, into, nothing, operated, read, sets, turned};

use crate::flags::{of_operation, where_set};
use crate::operands::{operand, operation, register};
use abs_state::Flags;
use call_effects::cell_of;
use sparc_decode::{AluOp, LoadKind, Second};
use transfer_rules::{Source, Step, Write};
use value_ops::Op;

/// The step that changes nothing.
pub fn nothing(depth: u8) -> Step
    ensures { result ≡ nothing depth }
{
    Step {
        depth,
        first: None,
        second: None,
        flags: None,
    }
}

/// A write of a register.
fn into(depth: u8, rd: u8, source: Source) -> Option<Write>
    requires depth { depth < 2 }
    requires register { rd < 32 }
    ensures { result ≡ into depth rd source }
{
    Some(Write {
        cell: cell_of(depth, rd),
        source,
    })
}

/// The step that writes a register, and may set the condition codes.
pub fn sets(depth: u8, rd: u8, source: Source, flags: Option<Flags>) -> Step
    requires depth { depth < 2 }
    requires register { rd < 32 }
    ensures { result ≡ sets depth rd source flags }
{
    Step {
        depth,
        first: into(depth, rd, source),
        second: None,
        flags,
    }
}

/// An operation on two operands.
pub fn applied(op: Op, depth: u8, rs1: u8, second: Second) -> Source
    requires depth { depth < 2 }
    requires register { rs1 < 32 }
    requires operand { IsOperand second }
    ensures { result ≡ applied op depth rs1 second }
{
    Source::Applied {
        op,
        left: register(depth, rs1),
        right: operand(depth, second),
    }
}

/// An instruction of the arithmetic and logical unit.
pub fn operated(depth: u8, op: AluOp, cc: bool, rd: u8, rs1: u8, second: Second) -> Step
    requires depth { depth < 2 }
    requires operands { AreOperands rd rs1 second }
    ensures { result ≡ operated depth op cc rd rs1 second }
{
    let source = applied(operation(op), depth, rs1, second);
    let flags = of_operation(op, depth, rd, rs1, second);
    sets(depth, rd, source, where_set(cc, flags))
}

/// SAVE from depth 0 to 1, and RESTORE from 1 to 0.
pub fn turned(depth: u8, new: u8, rd: u8, rs1: u8, second: Second) -> Step
    requires depth { depth < 2 }
    requires new { new < 2 }
    requires operands { AreOperands rd rs1 second }
    ensures { result ≡ turned depth new rd rs1 second }
{
    sets(new, rd, applied(Op::Add, depth, rs1, second), None)
}

/// What a load finds.
fn found(kind: LoadKind, depth: u8, rs1: u8, second: Second) -> Source
    requires depth { depth < 2 }
    requires register { rs1 < 32 }
    requires operand { IsOperand second }
    ensures { result ≡ found kind depth rs1 second }
{
    match kind {
        LoadKind::Ld => Source::Loaded {
            left: register(depth, rs1),
            right: operand(depth, second),
        },
        LoadKind::Ldub => Source::Ranged { lo: 0, hi: 255 },
        LoadKind::Lduh => Source::Ranged { lo: 0, hi: 65535 },
        LoadKind::Ldd => Source::Anything,
        LoadKind::Ldsb => Source::Ranged { lo: -128, hi: 127 },
        LoadKind::Ldsh => Source::Ranged {
            lo: -32768,
            hi: 32767,
        },
    }
}

/// A load of a double word into an even register and the one behind it.
fn read_double(depth: u8, rd: u8, rs1: u8, second: Second) -> Step
    requires depth { depth < 2 }
    requires register { rd < 32 }
    requires even { is_odd_double_load LoadKind.Ldd rd ≡ false }
    ensures { result ≡ read depth LoadKind.Ldd rd rs1 second }
{
    let _ = (rs1, second);
    Step {
        depth,
        first: into(depth, rd, Source::Anything),
        second: into(depth, rd + 1, Source::Anything),
        flags: None,
    }
}

/// A load.
pub fn read(depth: u8, kind: LoadKind, rd: u8, rs1: u8, second: Second) -> Step
    requires depth { depth < 2 }
    requires operands { AreOperands rd rs1 second }
    requires even { is_odd_double_load kind rd ≡ false }
    ensures { result ≡ read depth kind rd rs1 second }
{
    match kind {
        LoadKind::Ldd => read_double(depth, rd, rs1, second),
        LoadKind::Ld => sets(depth, rd, found(kind, depth, rs1, second), None),
        LoadKind::Ldub => sets(depth, rd, found(kind, depth, rs1, second), None),
        LoadKind::Lduh => sets(depth, rd, found(kind, depth, rs1, second), None),
        LoadKind::Ldsb => sets(depth, rd, found(kind, depth, rs1, second), None),
        LoadKind::Ldsh => sets(depth, rd, found(kind, depth, rs1, second), None),
    }
}
