ghost use Rattle.std.specs.Prelude.{◌≡◌, ℕ, IfOk, IsTrue, List};
ghost use Rattle.flow_system.specs.Empty.{empty_rules};
ghost use Rattle.flow_system.specs.Facts.{fact_at};
ghost use Rattle.flow_system.specs.Laws.{FitOneKey, IsLawful};
ghost use Rattle.flow_system.specs.Rules.{Rules};
ghost use Rattle.flow_system.specs.State.{AllFit};

use crate::Facts;
use bt_base::Want;
use std::alloc::Global;
use std::marker::Brand;

/// A system of keys and facts.
///
/// Its meaning is `rules`; each method answers what the rules say, or want of memory. The laws make its
/// least closed state the same for every order of work.
pub trait System {
    type Key: Ord + Copy;

    type Val: Drop;

    ghost rules: { Self → Rules Self.Key Self.Val };

    /// The start pieces, which every state has to contain.
    fn starts(&self, alloc: Global) -> Result<Vec<(Self::Key, Self::Val)>, Want>
        ensures { IfOk result (λ pieces. pieces.items ≡ (rules self.now).starts) };

    /// The keys whose facts `give` looks at, the key itself among them.
    fn reads(&self, alloc: Global, k: Self::Key) -> Result<Vec<Self::Key>, Want>
        ensures { IfOk result (λ keys. keys.items ≡ (rules self.now).reads k) };

    /// The pieces that a key gives over the facts.
    fn give(
        &self,
        alloc: Global,
        k: Self::Key,
        facts: &Facts<Self::Key, Self::Val>,
    ) -> Result<Vec<(Self::Key, Self::Val)>, Want>
        requires { AllFit (rules self.now) (fact_at Self.Key.cmp facts.now) }
        ensures { IfOk result
            (λ pieces. pieces.items ≡ (rules self.now).gives k (fact_at Self.Key.cmp facts.now)) };

    /// The least fact that is at least both.
    fn join(&self, alloc: Global, a: &Self::Val, b: &Self::Val) -> Result<Self::Val, Want>
        requires { FitOneKey (rules self.now) a.now b.now }
        ensures { IfOk result (λ joined. joined ≡ (rules self.now).join a.now b.now) };

    /// Whether the first fact is at most the second.
    fn at_most(&self, a: &Self::Val, b: &Self::Val) -> bool
        requires { FitOneKey (rules self.now) a.now b.now }
        ensures { result ≡ (rules self.now).at_most a.now b.now };

    /// A fact equal to this one.
    fn copy(&self, alloc: Global, a: &Self::Val) -> Result<Self::Val, Want>
        ensures { IfOk result (λ copied. copied ≡ a.now) };

    /// Whether a key counts towards the limit on nodes. Only a counted key gives anything.
    fn counted(&self, k: Self::Key) -> bool
        ensures { result ≡ (rules self.now).counted k };

    ghost lawful: { (s : Self) → IsLawful Self.Key.cmp (rules s) };
}

/// Names one system and one limit on nodes, for types that hold a core under a lock.
///
/// It has no calls: whoever makes such a type picks the rules and the limit.
pub trait Name<K, V> {
    ghost rules: { Rules K V };

    ghost limit: { ℕ };
}

/// A call that passes `Brand` picks the system and the limit that it names; where none is picked, they are those of the
/// system that gives nothing.
impl<K, V> Name<K, V> for Brand {
    ghost rules = { empty_rules };

    ghost limit = { 0 };
}
