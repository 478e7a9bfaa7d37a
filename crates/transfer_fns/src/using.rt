ghost use Rattle.std.specs.Prelude.{◌≡◌};
ghost use Rattle.transfer_fns.specs.Laws.{AreNumbers-prop, lawful_over};
ghost use Rattle.transfer_fns.specs.Numbers.{AreNumbers};
ghost use Rattle.transfer_fns.specs.Setting.{rules_over};

use crate::SparcSystem;
use crate::parts::Parts;
use abs_state::Key;
use bt_base::Want;
use flow_system::{Facts, System};
use std::alloc::Global;
use transfer_rules::Fact;
use value_lattice::Thresholds;

/// The system with the same rules over other thresholds, as contexts have more of them.
pub struct Using<'a> {
    system: &'a SparcSystem,
    thresholds: Thresholds,
    ghost numbers: { AreNumbers thresholds } by { AreNumbers-prop thresholds },
}

impl<'a> Drop for Using<'a> {
    fn drop(self) {
        let Using {
            system: _,
            thresholds: _,
        } = self;
    }
}

impl SparcSystem {
    /// The system with the same rules over other thresholds.
    pub fn using(&self, t: Thresholds) -> Using<'_>
        ensures system { result.system.now ≡ self.now }
        ensures thresholds { result.thresholds ≡ t }
    {
        t.are_thresholds();
        Using {
            system: self,
            thresholds: t,
        }
    }
}

impl<'a> Using<'a> {
    /// Its parts.
    fn parts(&self) -> Parts<'_>
        ensures image { result.image.now ≡ self.now.system.now.image }
        ensures binding { result.binding.now ≡ self.now.system.now.binding }
        ensures eight { result.eight ≡ self.now.system.now.eight }
        ensures thresholds { result.thresholds.now ≡ self.now.thresholds }
    {
        Parts {
            image: self.system.image(),
            binding: self.system.binding(),
            eight: self.system.eight(),
            thresholds: &self.thresholds,
        }
    }
}

impl<'a> System for Using<'a> {
    type Key = Key;

    type Val = Fact;

    ghost rules = { λ s. rules_over s.thresholds s.system.now.image s.system.now.binding s.system.now.eight };

    ghost lawful = { λ s. lawful_over s.thresholds s.system.now.image s.system.now.binding s.system.now.eight s.numbers };

    fn starts(&self, alloc: Global) -> Result<Vec<(Key, Fact)>, Want> {
        let binding = self.system.binding();
        transfer_give::starts(alloc, binding.roots(), binding.stubs())
    }

    fn reads(&self, alloc: Global, k: Key) -> Result<Vec<Key>, Want> {
        transfer_give::reads(alloc, k)
    }

    fn give(
        &self,
        alloc: Global,
        k: Key,
        facts: &Facts<Key, Fact>,
    ) -> Result<Vec<(Key, Fact)>, Want> {
        transfer_give::give(&self.parts(), alloc, k, facts)
    }

    fn join(&self, alloc: Global, a: &Fact, b: &Fact) -> Result<Fact, Want> {
        transfer_give::join(alloc, a, b, &self.thresholds)
    }

    fn at_most(&self, a: &Fact, b: &Fact) -> bool {
        transfer_give::at_most(a, b, &self.thresholds)
    }

    fn copy(&self, alloc: Global, a: &Fact) -> Result<Fact, Want> {
        transfer_give::copy(alloc, a)
    }

    fn counted(&self, k: Key) -> bool {
        transfer_give::counted(k)
    }
}
