//! Places that a step leads to.
ghost use Rattle.std.specs.Prelude.{◌≡◌};
ghost use Rattle.transfer_rules.specs.Give.{behind, delayed, entry_of, onward, place};

use abs_state::{Next, Place};

/// An address so far behind another, modulo 2^32.
pub fn behind(a: u32, n: u32) -> u32
    ensures { result ≡ behind a n }
{
    a.wrapping_add(n)
}

/// Another place of the same subprogram.
pub fn place(p: Place, pc: u32, next: Next, depth: u8) -> Place
    ensures { result ≡ place p pc next depth }
{
    Place {
        sub: p.sub,
        pc,
        next,
        depth,
    }
}

/// A place and the one after it.
pub fn onward(p: Place, pc: u32, depth: u8) -> Place
    ensures { result ≡ onward p pc depth }
{
    place(p, pc, Next::At(behind(pc, 4)), depth)
}

/// The place of the delay instruction.
pub fn delayed(p: Place, next: Next) -> Place
    ensures { result ≡ delayed p next }
{
    place(p, behind(p.pc, 4), next, p.depth)
}

/// The place of a subprogram's entry.
pub fn entry_of(sub: u32) -> Place
    ensures { result ≡ entry_of sub }
{
    Place {
        sub,
        pc: sub,
        next: Next::At(behind(sub, 4)),
        depth: 0,
    }
}
