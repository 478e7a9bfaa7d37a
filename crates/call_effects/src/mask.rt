ghost use Rattle.std.specs.Prelude.{◌≡◌, ◌<◌, ◌≤◌};
ghost use Rattle.call_effects.specs.Mask.{IsMask, has_cell, with_cell, union, is_within, after_call};

use std::marker::Model;

/// A set of cells from 1 to 47.
///
/// Contracts see the number whose bit c stands for cell c; `has_cell` says which cells it has.
#[derive(Clone, Copy, Debug, PartialEq, Eq)]
pub struct Mask {
    bits: u64,
}

impl Model for Mask {
    ghost use Rattle.std.specs.Prelude.{ℕ};
    ghost use Rattle.call_effects.specs.Mask.{IsMask};

    ghost Value = { ℕ };

    ghost view = { λ mask. mask.bits };

    ghost invariant = { λ mask. IsMask mask.bits };

    ghost inverse = { λ bits. record { bits = bits } };
}

impl Mask {
    /// No cell.
    pub fn none() -> Mask
        ensures { result ≡ 0 }
    {
        Mask { bits: 0 }
    }

    /// The set with one cell more.
    pub fn with(self, c: u8) -> Mask
        requires above { 1 ≤ c }
        requires below { c < 48 }
        ensures cells { result ≡ with_cell self c }
        ensures mask { IsMask result }
    {
        Mask {
            bits: self.bits | 1 << c,
        }
    }

    /// Whether a cell is in the set.
    pub fn has(self, c: u8) -> bool
        ensures cell { result ≡ has_cell self c }
        ensures mask { IsMask self }
    {
        c < 48 && (self.bits >> c) & 1 == 1
    }

    /// The cells of both sets.
    pub fn join(self, other: Mask) -> Mask
        ensures cells { result ≡ union self other }
        ensures mask { IsMask result }
    {
        Mask {
            bits: self.bits | other.bits,
        }
    }

    /// Whether each cell of this set is one of the other.
    pub fn within(self, other: Mask) -> bool
        ensures cells { result ≡ is_within self other }
        ensures mask { IsMask self }
    {
        self.bits | other.bits == other.bits
    }
}

/// The cells that the mask of all that a stub may write has: 1 to 15 and 32 to 47.
const STUB: u64 = 0x0000_ffff_0000_fffe;

/// The cells that the System V ABI lets a function change: the globals, the out registers, and all below its window.
pub(crate) fn stub_mask() -> Mask
    ensures { result ≡ 281470681808894 }
{
    Mask { bits: STUB }
}

/// The caller's cells that a callee may write which is called at a depth and may write the cells of `m`.
///
/// The callee's entry window is the caller's at that depth. So its cells below 32 are the registers of that window,
/// and its cells from 32 on are below it: at depth 1 no cell of the caller.
pub fn after_call(m: Mask, depth: u8) -> Mask
    requires { depth < 2 }
    ensures cells { result ≡ after_call m depth }
    ensures mask { IsMask result }
{
    if depth == 0 {
        return m;
    }
    let globals = m.bits & 0xff;
    let ins = (m.bits >> 24 & 0xff) << 8;
    let outs_and_locals = (m.bits >> 8 & 0xffff) << 32;
    Mask {
        bits: globals + ins + outs_and_locals,
    }
}
