ghost use Rattle.std.specs.Prelude.{◌≡◌, IfOk, IsTrue};
ghost use Rattle.local_facts.specs.Restricted.{IsRestriction, restricted};
ghost use Rattle.local_facts.specs.Laws.{IsRestriction-prop, restricted_lawful};

use crate::keeping::{copies_beside, copy_pieces, keep_pieces};
use bt_base::Want;
use flow_system::{Facts, System};
use std::alloc::Global;

/// A system restricted to the keys of a list, with fixed facts beside it.
///
/// A key gives those pieces of kept keys that it gives in the whole system, where it sees the fixed facts at the
/// keys that aren't kept; so its facts stand at kept keys alone. It has each law of `System` because the whole system
/// has it: `at_most` is an order, `join` is least, `give` is monotone, `reads` names all that `give` looks at, and
/// ranks and lists have limits.
pub struct Local<'a, S: System> {
    system: &'a S,
    starts: Vec<(S::Key, S::Val)>,
    keep: Vec<S::Key>,
    fixed: Facts<S::Key, S::Val>,
    ghost sound: { IsRestriction S.Key.cmp (S.rules system.now) starts.items keep.items fixed } by { IsRestriction-prop S.Key.cmp (S.rules system.now) starts.items keep.items fixed },
}

impl<'a, S: System> Drop for Local<'a, S> {
    fn drop(self) {
        let Local {
            system: _,
            starts: _,
            keep: _,
            fixed: _,
        } = self;
    }
}

impl<'a, S: System> Local<'a, S> {
    /// The restriction of a system to the keys of `keep`, which starts with the pieces of `starts`.
    ///
    /// The keys of `keep` rise; those of `starts` are among them, and those of `fixed` aren't; and both fit their keys.
    /// A kept key is found by binary search, and a fixed fact by the map's own look-up.
    pub fn new(
        system: &'a S,
        starts: Vec<(S::Key, S::Val)>,
        keep: Vec<S::Key>,
        fixed: Facts<S::Key, S::Val>,
    ) -> Local<'a, S>
        requires { IsRestriction S.Key.cmp (S.rules system.now) starts.items keep.items fixed }
        ensures { ⟦<Local<'a, S> as System>⟧.rules result ≡ restricted S.Key.cmp (S.rules system.now) starts.items keep.items fixed }
    {
        Local {
            system,
            starts,
            keep,
            fixed,
        }
    }
}

impl<'a, S: System> System for Local<'a, S> {
    type Key = S::Key;

    type Val = S::Val;

    ghost rules = { λ s. restricted S.Key.cmp (S.rules s.system.now) s.starts.items s.keep.items s.fixed };

    ghost lawful = { λ s. restricted_lawful S.Key.cmp (S.rules s.system.now) (S.lawful s.system.now) s.starts.items s.keep.items s.fixed s.sound };

    fn starts(&self, alloc: Global) -> Result<Vec<(S::Key, S::Val)>, Want> {
        copy_pieces(self.system, alloc, &self.starts)
    }

    fn reads(&self, alloc: Global, k: S::Key) -> Result<Vec<S::Key>, Want> {
        self.system.reads(alloc, k)
    }

    fn give(
        &self,
        alloc: Global,
        k: S::Key,
        facts: &Facts<S::Key, S::Val>,
    ) -> Result<Vec<(S::Key, S::Val)>, Want> {
        let reads = self.system.reads(alloc, k)?;
        let seen = copies_beside(self.system, alloc, &self.keep, &self.fixed, facts, &reads)?;
        let mut pieces = self.system.give(alloc, k, &seen)?;
        keep_pieces(&self.keep, &mut pieces);
        Ok(pieces)
    }

    fn join(&self, alloc: Global, a: &S::Val, b: &S::Val) -> Result<S::Val, Want> {
        self.system.join(alloc, a, b)
    }

    fn at_most(&self, a: &S::Val, b: &S::Val) -> bool {
        self.system.at_most(a, b)
    }

    fn copy(&self, alloc: Global, a: &S::Val) -> Result<S::Val, Want> {
        self.system.copy(alloc, a)
    }

    fn counted(&self, k: S::Key) -> bool {
        self.system.counted(k)
    }
}
