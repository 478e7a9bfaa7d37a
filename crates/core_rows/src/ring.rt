ghost use Rattle.std.specs.Prelude.{◌/◌, ◌%◌};
ghost use Rattle.core_rows.specs.Ring.{ring, ring_lawful, ring_parted};

use bt_base::Want;
use flow_system::{Facts, Parted, System};
use std::alloc::Global;

/// Keys in a ring up to `last`, each of which hands its number on to the next one; where the ring closes
/// it is one more, up to 3. Key 0 starts with 0, and another one with 1.
#[derive(Drop)]
pub struct Ring {
    /// The last key.
    pub last: u32,
    /// The other key that a fact stands at from the start.
    pub second: u32,
}

impl System for Ring {
    type Key = u32;

    type Val = u8;

    ghost rules = { λ s. ring s.last s.second };

    ghost lawful = { λ s. ring_lawful s.last s.second };

    fn starts(&self, alloc: Global) -> Result<Vec<(u32, u8)>, Want> {
        let mut pieces = Vec::new(alloc);
        pieces.push((0, 0))?;
        pieces.push((self.second, 1))?;
        Ok(pieces)
    }

    fn reads(&self, alloc: Global, k: u32) -> Result<Vec<u32>, Want> {
        let mut keys = Vec::new(alloc);
        keys.push(k)?;
        Ok(keys)
    }

    fn give(&self, alloc: Global, k: u32, facts: &Facts<u32, u8>) -> Result<Vec<(u32, u8)>, Want> {
        let mut pieces = Vec::new(alloc);
        if let Some(fact) = facts.get(k) {
            let handed = *fact;
            if k < self.last {
                pieces.push((k + 1, handed))?;
            } else {
                pieces.push((0, handed.saturating_add(1).min(3)))?;
            }
        }
        Ok(pieces)
    }

    fn join(&self, _alloc: Global, a: &u8, b: &u8) -> Result<u8, Want> {
        Ok((*a).max(*b))
    }

    fn at_most(&self, a: &u8, b: &u8) -> bool {
        *a <= *b
    }

    fn copy(&self, _alloc: Global, a: &u8) -> Result<u8, Want> {
        Ok(*a)
    }

    fn counted(&self, _k: u32) -> bool {
        true
    }
}

/// A part has 16 keys in a row, and the part after the last is the first again.
impl Parted for Ring {
    ghost part_of = { λ s k. k / 16 % 64 };

    ghost few = { λ s k. ring_parted k };

    fn part(&self, k: u32) -> u32 {
        k / 16 % 64
    }
}
