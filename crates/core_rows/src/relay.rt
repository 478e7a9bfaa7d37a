ghost use Rattle.std.specs.Prelude.{◌∷◌, [], IsTrue};
ghost use Rattle.std.specs.Ordering.{nat_cmp};
ghost use Rattle.std.specs.List.Sorted.{IsStrictlySortedBy};
ghost use Rattle.local_facts.specs.Restricted.{IsRestriction};
ghost use Rattle.core_rows.specs.Relay.{relay, relay_lawful};

use bt_base::Want;
use flow_system::{Facts, System};
use local_facts::is_kept;
use std::alloc::Global;

/// Keys in a ring up to `last`, each of which hands on the greater of its own number and that of the last key.
#[derive(Drop)]
pub struct Relay {
    /// The last key.
    pub last: u32,
}

impl System for Relay {
    type Key = u32;

    type Val = u8;

    ghost rules = { λ s. relay s.last };

    ghost lawful = { λ s. relay_lawful s.last };

    fn starts(&self, alloc: Global) -> Result<Vec<(u32, u8)>, Want> {
        let mut pieces = Vec::new(alloc);
        pieces.push((0, 0))?;
        Ok(pieces)
    }

    fn reads(&self, alloc: Global, k: u32) -> Result<Vec<u32>, Want> {
        let mut keys = Vec::new(alloc);
        keys.push(k)?;
        keys.push(self.last)?;
        Ok(keys)
    }

    fn give(&self, alloc: Global, k: u32, facts: &Facts<u32, u8>) -> Result<Vec<(u32, u8)>, Want> {
        let mut pieces = Vec::new(alloc);
        if let Some(fact) = facts.get(k) {
            let own = *fact;
            let handed = match facts.get(self.last) {
                None => own,
                Some(other) => own.max(*other),
            };
            if k < self.last {
                pieces.push((k + 1, handed))?;
            } else {
                pieces.push((0, handed))?;
            }
        }
        Ok(pieces)
    }

    fn join(&self, _alloc: Global, a: &u8, b: &u8) -> Result<u8, Want> {
        Ok((*a).max(*b))
    }

    fn at_most(&self, a: &u8, b: &u8) -> bool {
        *a <= *b
    }

    fn copy(&self, _alloc: Global, a: &u8) -> Result<u8, Want> {
        Ok(*a)
    }

    fn counted(&self, _k: u32) -> bool {
        true
    }
}

/// Whether the keys rise.
fn rises(keys: &[u32]) -> bool
    ensures { IsTrue result → IsStrictlySortedBy nat_cmp keys.now }
{
    for place in 1..keys.len() {
        if keys[place - 1] >= keys[place] {
            return false;
        }
    }
    true
}

/// Whether the ring can be restricted to these keys, with one start piece and one fixed fact.
pub fn can_restrict(keep: &[u32], start: (u32, u8), fixed: (u32, u8)) -> bool
    ensures { IsTrue result → IsRestriction nat_cmp (relay 4) (start ∷ []) keep.now (fixed ∷ []) }
{
    if !rises(keep) {
        return false;
    }
    is_kept(keep, start.0) && !is_kept(keep, fixed.0) && start.1 <= 3 && fixed.1 <= 3
}
