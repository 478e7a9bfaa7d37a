ghost use Rattle.std.specs.Prelude.{◌≡◌, ℕ, ◌<◌};

use crate::system::System;

/// How many parts the keys of a system are divided into, where it is grown by parts.
pub const PARTS: u32 = 64;

/// A system each of whose keys belongs to one of 64 parts, so that workers can grow its graph part by part.
pub trait Parted: System {
    ghost part_of: { Self → Self.Key → ℕ };

    /// The number of the part that a key belongs to, below 64.
    fn part(&self, k: Self::Key) -> u32
        ensures { result ≡ part_of self.now k };

    ghost few: { (s : Self) (k : Self.Key) → part_of s k < 64 };
}
