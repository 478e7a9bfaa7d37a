//! Where control goes on behind a branch.
ghost use Rattle.std.specs.Prelude.{◌==◌, ◌≡◌, if◌then◌else◌};
ghost use Rattle.sparc_machine.specs.Effect.{target_of};
ghost use Rattle.transfer_acts.specs.Act.{behind, branch, directions, is_next, taken, test_of, untaken, untested};

use crate::steps::nothing;
use abs_state::{GapKind, Next, Place};
use transfer_rules::{Act, Exit, Test, Way};

/// An instruction that isn't followed.
pub fn open_instruction() -> Act
    ensures { result ≡ Act.Open GapKind.Instr }
{
    Act::Open(GapKind::Instr)
}

/// An address so far behind another, modulo 2^32.
pub fn behind(a: u32, n: u32) -> u32
    ensures { result ≡ behind a n }
{
    a.wrapping_add(n)
}

/// Whether control goes on to the instruction behind that of a place.
pub fn is_next(next: Next, pc: u32) -> bool
    ensures { result ≡ is_next next pc }
{
    match next {
        Next::At(n) => n == behind(pc, 4),
        Next::Into(_) => false,
        Next::Back => false,
    }
}

/// The address of a displacement of words.
fn target(pc: u32, disp: i32) -> u32
    ensures { result ≡ target_of pc disp }
{
    pc.wrapping_add(disp.cast_unsigned().wrapping_mul(4))
}

/// When a direction of a branch is taken.
fn test_of(cond: u8, truth: bool) -> Test
    ensures { result ≡ test_of cond truth }
{
    if cond == 8 || cond == 0 {
        Test::Always
    } else {
        Test::When {
            condition: cond,
            truth,
        }
    }
}

/// Where a taken branch goes on to.
fn taken(p: Place, annul: bool, cond: u8, target: u32, test: Test) -> Exit
    ensures { result ≡ taken p annul cond target test }
{
    if annul && cond == 8 {
        Exit {
            pc: target,
            npc: behind(target, 4),
            test,
        }
    } else {
        Exit {
            pc: behind(p.pc, 4),
            npc: target,
            test,
        }
    }
}

/// Where an untaken branch goes on to.
fn untaken(p: Place, annul: bool, test: Test) -> Exit
    ensures { result ≡ untaken p annul test }
{
    if annul {
        Exit {
            pc: behind(p.pc, 8),
            npc: behind(p.pc, 12),
            test,
        }
    } else {
        Exit {
            pc: behind(p.pc, 4),
            npc: behind(p.pc, 8),
            test,
        }
    }
}

/// The direction of a branch that goes to its target: condition 0 has none.
fn toward(p: Place, annul: bool, cond: u8, target: u32, test: Test) -> Option<Exit>
    ensures { result ≡ (if cond == 0 then None else Some (taken p annul cond target test)) }
{
    if cond == 0 {
        None
    } else {
        Some(taken(p, annul, cond, target, test))
    }
}

/// The direction of a branch that goes on: condition 8 has none.
fn past(p: Place, annul: bool, cond: u8, test: Test) -> Option<Exit>
    ensures { result ≡ (if cond == 8 then None else Some (untaken p annul test)) }
{
    if cond == 8 {
        None
    } else {
        Some(untaken(p, annul, test))
    }
}

/// The directions of a branch on the integer unit's condition codes.
fn tested_directions(p: Place, annul: bool, cond: u8, target: u32) -> Way
    ensures { result ≡ directions test_of p annul cond target }
{
    Way::Forks {
        first: toward(p, annul, cond, target, test_of(cond, true)),
        second: past(p, annul, cond, test_of(cond, false)),
    }
}

/// The directions of a branch on the floating-point unit's.
fn untested_directions(p: Place, annul: bool, cond: u8, target: u32) -> Way
    ensures { result ≡ directions untested p annul cond target }
{
    Way::Forks {
        first: toward(p, annul, cond, target, Test::Always),
        second: past(p, annul, cond, Test::Always),
    }
}

/// A branch on the integer unit's condition codes.
pub fn branch(p: Place, annul: bool, cond: u8, disp: i32) -> Act
    ensures { result ≡ branch test_of p annul cond disp }
{
    if is_next(p.next, p.pc) {
        Act::Acts {
            step: nothing(p.depth),
            way: tested_directions(p, annul, cond, target(p.pc, disp)),
        }
    } else {
        open_instruction()
    }
}

/// A branch on the floating-point unit's.
pub fn float_branch(p: Place, annul: bool, cond: u8, disp: i32) -> Act
    ensures { result ≡ branch untested p annul cond disp }
{
    if is_next(p.next, p.pc) {
        Act::Acts {
            step: nothing(p.depth),
            way: untested_directions(p, annul, cond, target(p.pc, disp)),
        }
    } else {
        open_instruction()
    }
}
