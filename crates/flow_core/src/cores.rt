ghost use Rattle.std.specs.Prelude.{◌≡◌, ℕ, ◌+◌, ◌<◌, ◌≤◌, ◌↔◌, List, [], IfOk, IfErr, IfSome, IfNone, OnOk, OnErr, MatchOption, IsTrue, IsSome, is_some, IsOk, Contains, true, if◌then◌else◌};
ghost use Rattle.std.specs.declared.cmp.Ordering.{Ordering};
ghost use Rattle.flow_system.specs.Facts.{fact_at, KeysRise};
ghost use Rattle.flow_system.specs.State.{AllDue, AllFit};
ghost use Rattle.flow_core.specs.Core.{strike};
ghost use Rattle.flow_core.specs.Queue.{IsLeast, with_mark};
ghost use Rattle.flow_core.specs.Staged.{PiecesFit};
ghost use Rattle.flow_core.specs.Absorb.{Absorbs};
ghost use Rattle.flow_system.specs.Laws.{IsLawful};
ghost use Rattle.flow_system.specs.Rules.{Rules};

use crate::claims::{Answer, Claim};
use crate::queue::Queue;
use crate::readers::Readers;
use crate::refusals::GrowRefusal;
use crate::staging::{copy_facts, count_fresh, is_fresh, stage};
use crate::writing::{gather, mark_all, move_all_fresh, prepare, replace_all};
use bt_base::Want;
use flow_system::{Facts, System};
use std::alloc::Global;
use std::cmp::Ordering;
use std::marker::Model;

/// The core of a least fixed point: the facts so far, the pending keys, and the claims that are out.
///
/// Calls that are given a core and a system have the condition that the core is one of that system.
pub struct Core<S: System> {
    facts: Facts<S::Key, S::Val>,
    queue: Queue<S::Key>,
    out: Vec<S::Key>,
    readers: Readers<S::Key>,
    count: u64,
    limit: u64,
}

impl<S: System> Model for Core<S> {
    ghost use Rattle.flow_core.specs.Core.{CoreState};

    ghost Value = { CoreState S.Key S.Val };

    ghost view = { λ c. record { facts = c.facts; marks = c.queue; out = c.out.items; readers = c.readers; count = c.count; limit = c.limit } };
}

impl<S: System> Drop for Core<S> {
    fn drop(self) {
        let Core {
            facts: _,
            queue: _,
            out: _,
            readers: _,
            count: _,
            limit: _,
        } = self;
    }
}

/// The facts of a core that was idle.
pub struct Closed<S: System> {
    facts: Facts<S::Key, S::Val>,
}

impl<S: System> Model for Closed<S> {
    ghost use Rattle.std.specs.Prelude.{List};

    ghost Value = { List (S.Key × S.Val) };

    ghost view = { λ c. c.facts };
}

impl<S: System> Drop for Closed<S> {
    fn drop(self) {
        let Closed { facts: _ } = self;
    }
}

impl<S: System> Closed<S> {
    /// The facts.
    pub fn facts(&self) -> &Facts<S::Key, S::Val>
        ensures { result.now ≡ self.now }
    {
        &self.facts
    }
}

/// Takes the first of a key out of the list, if it is there.
fn strike_from<K: Ord + Copy>(out: &mut Vec<K>, k: K)
    ensures { out.new.items ≡ strike K.cmp out.old.items k }
{
    for place in 0..out.len() {
        match k.cmp(&out[place]) {
            Ordering::Equal => {
                out.remove(place);
                return;
            }
            _ => {}
        }
    }
}

/// Makes a key pending, where the facts have it.
fn mark_key<K: Ord + Copy, V>(queue: &mut Queue<K>, facts: &Facts<K, V>, k: K)
    ensures { queue.new ≡ (if is_some (fact_at K.cmp facts.now k) then with_mark K.cmp queue.old k true else queue.old) }
{
    if facts.get(k).is_some() {
        queue.mark(k);
    }
}

impl<S: System> Core<S> {
    ghost use Rattle.flow_core.specs.Claim.{IsClaimOf, IsAnswerOf, IsFresh};
    ghost use Rattle.flow_core.specs.Core.{CoreState, IsKey, IsPending, IsIdle, IsKept, IsUnchanged, IsPart, IsGood, IsGrowth, Joins};
    ghost use Rattle.flow_core.specs.Event.{Takes, Merges, struck, without_claim};
    ghost use Rattle.flow_core.specs.Passed.{passed_over};
    ghost use Rattle.flow_core.specs.Refusal.{IsPassing, IsTooBig};

    /// Joins the pieces to the facts, and makes each key pending that reads a fact that grew.
    ///
    /// It answers how many facts grew. After a refusal all is as before.
    fn absorb(
        &mut self,
        alloc: Global,
        system: &S,
        pieces: &[(S::Key, S::Val)],
    ) -> Result<usize, GrowRefusal>
        requires fit { AllFit (S.rules system.now) (fact_at S.Key.cmp self.old.facts) }
        requires kept { IsKept S.Key.cmp (S.rules system.now) self.old }
        requires pieces_fit { PiecesFit (S.rules system.now) pieces.now }
        ensures absorbs { IfOk result (Absorbs S.Key.cmp (S.rules system.now) self.old pieces.now self.new) }
        ensures unchanged { OnErr result (IsUnchanged S.Key.cmp (S.rules system.now) self.old self.new) }
        ensures nodes { IfErr result (IsPassing S.Key.cmp (S.rules system.now) self.old.facts pieces.now self.old.limit) }
    {
        let mut risen = stage(system, alloc, &self.facts, pieces)?;
        let keys = risen.keys(alloc)?;
        let fresh = count_fresh(system, &self.facts, &keys);
        // So many keys are counted at the most, which keeps the sums below within range.
        let _held = self.facts.len();
        let count = self.count + fresh as u64;
        if count > self.limit {
            return Err(GrowRefusal::Nodes {
                count: self.limit + 1,
            });
        }
        prepare(
            system,
            alloc,
            &self.facts,
            &mut self.queue,
            &mut self.readers,
            &keys,
        )?;
        let woken = gather(alloc, &self.readers, &keys)?;
        move_all_fresh(&mut self.facts, &mut risen, &keys)?;
        replace_all(&mut self.facts, &mut risen, &keys);
        mark_all(&mut self.queue, &self.facts, &woken);
        self.count = count;
        Ok(keys.len())
    }

    /// A core with no facts, whose counted keys may be so many.
    pub fn empty(alloc: Global, _system: &S, limit: u64) -> Core<S>
        ensures part { IsPart S.Key.cmp (S.rules _system.now) result }
        ensures facts { result.facts ≡ [] }
        ensures marks { result.marks ≡ [] }
        ensures none_out { result.out ≡ [] }
        ensures limit { result.limit ≡ limit }
    {
        Core {
            facts: Facts::empty(alloc),
            queue: Queue::empty(alloc),
            out: Vec::new(alloc),
            readers: Readers::empty(alloc),
            count: 0,
            limit,
        }
    }

    /// A core of a system whose counted keys may be so many: the start pieces, all pending.
    ///
    /// Nodes comes exactly where the start pieces alone would pass the limit.
    pub fn new(alloc: Global, system: &S, limit: u64) -> Result<Core<S>, GrowRefusal>
        ensures good { IfOk result (IsGood S.Key.cmp (S.rules system.now)) }
        ensures starts { IfOk result (λ core. Joins (S.rules system.now) (fact_at S.Key.cmp []) (S.rules system.now).starts (fact_at S.Key.cmp core.facts)) }
        ensures pending { IfOk result (λ core. (k : S.Key) → IsKey S.Key.cmp core k → IsPending S.Key.cmp core k) }
        ensures none_out { IfOk result (λ core. core.out ≡ []) }
        ensures limit { IfOk result (λ core. core.limit ≡ limit) }
        ensures nodes { IfErr result (IsPassing S.Key.cmp (S.rules system.now) [] (S.rules system.now).starts limit) }
    {
        let starts = system.starts(alloc)?;
        let mut core = Core::empty(alloc, system, limit);
        core.absorb(alloc, system, &starts)?;
        Ok(core)
    }

    /// Joins pieces that are due to the facts, whoever found them. It answers how many facts grew.
    ///
    /// Every key that reads a fact that grew becomes pending. Nodes comes exactly where the counted keys would pass the
    /// limit; then the due graph has more of them than the limit. After a refusal all is as before.
    pub fn join(
        &mut self,
        alloc: Global,
        system: &S,
        pieces: &[(S::Key, S::Val)],
    ) -> Result<usize, GrowRefusal>
        requires part { IsPart S.Key.cmp (S.rules system.now) self.old }
        requires pieces_fit { PiecesFit (S.rules system.now) pieces.now }
        requires due { AllDue (S.rules system.now) pieces.now }
        ensures absorbs { IfOk result (Absorbs S.Key.cmp (S.rules system.now) self.old pieces.now self.new) }
        ensures unchanged { OnErr result (IsUnchanged S.Key.cmp (S.rules system.now) self.old self.new) }
        ensures nodes { IfErr result (IsPassing S.Key.cmp (S.rules system.now) self.old.facts pieces.now self.old.limit) }
        ensures too_big { IfErr result (IsTooBig S.Key.cmp (S.rules system.now) self.old.limit) }
        ensures part { IsPart S.Key.cmp (S.rules system.now) self.new }
        ensures growth { IsGrowth S.Key.cmp (S.rules system.now) self.old self.new }
    {
        self.absorb(alloc, system, pieces)
    }

    /// The least pending key; None exactly where nothing is pending.
    pub fn next(&self) -> Option<S::Key>
        ensures none { IfNone result ((k : S.Key) → IsPending S.Key.cmp self.now k → ⊥) }
        ensures least { IfSome result (IsLeast S.Key.cmp self.now.marks) }
    {
        self.queue.least()
    }

    /// Takes the least pending key out without looking at it; None exactly where nothing is pending.
    ///
    /// No claim of it is made: it is pending again once a fact that it reads has grown.
    pub fn pass_over(&mut self) -> Option<S::Key>
        ensures none { IfNone result ((k : S.Key) → IsPending S.Key.cmp self.old k → ⊥) }
        ensures unchanged { IfNone result (self.new ≡ self.old) }
        ensures least { IfSome result (IsLeast S.Key.cmp self.old.marks) }
        ensures passed { IfSome result (λ k. self.new ≡ passed_over S.Key.cmp self.old k) }
        ensures part { (m : Rules S.Key S.Val) → IsLawful S.Key.cmp m → IsPart S.Key.cmp m self.old → IsPart S.Key.cmp m self.new }
    {
        self.queue.take_least()
    }

    /// Takes the least pending key out to be looked at, with copies of the facts that it reads; None
    /// exactly where nothing is pending.
    ///
    /// Want, and None, leave the core as it was.
    pub fn take(
        &mut self,
        alloc: Global,
        system: &S,
        _worker: u32,
    ) -> Result<Option<Claim<S>>, Want>
        requires { IsPart S.Key.cmp (S.rules system.now) self.old }
        ensures taken { IfOk result (λ taken. IfSome taken (λ claim. Takes S.Key.cmp (S.rules system.now) self.old claim self.new)) }
        ensures of { IfOk result (λ taken. IfSome taken (IsClaimOf S.Key.cmp (S.rules system.now))) }
        ensures none { IfOk result (λ taken. IfNone taken ((k : S.Key) → IsPending S.Key.cmp self.old k → ⊥)) }
        ensures same { IfOk result (λ taken. IfNone taken (self.new ≡ self.old)) }
        ensures unchanged { OnErr result (self.new ≡ self.old) }
        ensures part { IsPart S.Key.cmp (S.rules system.now) self.new }
        ensures good { IsGood S.Key.cmp (S.rules system.now) self.old → IsGood S.Key.cmp (S.rules system.now) self.new }
        ensures growth { IsGrowth S.Key.cmp (S.rules system.now) self.old self.new }
    {
        let k = match self.queue.least() {
            None => return Ok(None),
            Some(k) => k,
        };
        let reads = system.reads(alloc, k)?;
        let copies = copy_facts(system, alloc, &self.facts, &reads)?;
        self.out.push(k)?;
        match self.queue.take_least() {
            None => unreachable!(),
            Some(key) => Ok(Some(Claim::new(key, copies))),
        }
    }

    /// Joins an answer's pieces to the facts, and ends its claim. It answers how many facts grew.
    ///
    /// Every key that reads a fact that grew becomes pending, and so does the claim's own key where its
    /// copies aren't the facts as they stood before. Nodes comes exactly where the counted keys would pass
    /// the limit. A refusal hands the answer back, and all is as before.
    pub fn merge(
        &mut self,
        alloc: Global,
        system: &S,
        answer: Answer<S>,
    ) -> Result<usize, (Answer<S>, GrowRefusal)>
        requires part { IsPart S.Key.cmp (S.rules system.now) self.old }
        requires of { IsAnswerOf S.Key.cmp (S.rules system.now) answer }
        ensures merged { IfOk result (Merges S.Key.cmp (S.rules system.now) self.old answer self.new) }
        ensures handed_back { IfErr result (λ refused. refused.0 ≡ answer) }
        ensures unchanged { OnErr result (IsUnchanged S.Key.cmp (S.rules system.now) self.old self.new) }
        ensures nodes { IfErr result (λ refused. IsPassing S.Key.cmp (S.rules system.now) self.old.facts answer.pieces self.old.limit refused.1) }
        ensures part { IsPart S.Key.cmp (S.rules system.now) self.new }
        ensures good { IsGood S.Key.cmp (S.rules system.now) self.old → IsGood S.Key.cmp (S.rules system.now) self.new }
        ensures growth { IsGrowth S.Key.cmp (S.rules system.now) self.old self.new }
    {
        let key = answer.of().key();
        let reads = match system.reads(alloc, key) {
            Ok(reads) => reads,
            Err(_) => return Err((answer, GrowRefusal::Want)),
        };
        let fresh = is_fresh(system, &self.facts, answer.of().copies(), &reads);
        match self.absorb(alloc, system, answer.pieces()) {
            Err(refusal) => Err((answer, refusal)),
            Ok(grown) => {
                if fresh {
                    self.strike_key(key);
                } else {
                    self.return_key(key);
                }
                Ok(grown)
            }
        }
    }

    /// Ends a claim of a key.
    fn strike_key(&mut self, k: S::Key)
        ensures { self.new ≡ struck S.Key.cmp self.old k }
    {
        strike_from(&mut self.out, k);
    }

    /// Ends a claim of a key, which is pending again where the facts have it.
    fn return_key(&mut self, k: S::Key)
        ensures { self.new ≡ without_claim S.Key.cmp self.old k }
    {
        strike_from(&mut self.out, k);
        mark_key(&mut self.queue, &self.facts, k);
    }

    /// Ends every claim that is listed: each of their keys that the facts have is pending.
    pub(crate) fn strike_all(&mut self, _system: &S)
        requires { IsGood S.Key.cmp (S.rules _system.now) self.old }
        ensures good { IsGood S.Key.cmp (S.rules _system.now) self.new }
        ensures none_out { self.new.out ≡ [] }
        ensures facts { self.new.facts ≡ self.old.facts }
        ensures limit { self.new.limit ≡ self.old.limit }
    {
        mark_all(&mut self.queue, &self.facts, &self.out);
        self.out.clear();
    }

    /// Ends a claim without an answer: its key, where the facts have it, is pending again.
    ///
    /// A core that is good for some system stays good.
    pub fn give_back(&mut self, claim: Claim<S>)
        ensures returned { self.new ≡ without_claim S.Key.cmp self.old claim.key }
        ensures part { (m : Rules S.Key S.Val) → IsLawful S.Key.cmp m → IsPart S.Key.cmp m self.old → IsPart S.Key.cmp m self.new }
        ensures good { (m : Rules S.Key S.Val) → IsLawful S.Key.cmp m → IsGood S.Key.cmp m self.old → IsGood S.Key.cmp m self.new }
    {
        self.return_key(claim.key());
    }

    /// Whether nothing is pending and no claim is out.
    pub fn idle(&self) -> bool
        ensures { IsTrue result ↔ IsIdle S.Key.cmp self.now }
    {
        self.queue.least().is_none() && self.out.is_empty()
    }

    /// The facts so far.
    pub fn facts(&self) -> &Facts<S::Key, S::Val>
        ensures { result.now ≡ self.now.facts }
    {
        &self.facts
    }

    /// How many of the facts' keys may be counted ones.
    pub fn limit(&self) -> u64
        ensures { result ≡ self.now.limit }
    {
        self.limit
    }

    /// The facts of an idle core; Err, with the core as it was, exactly where it isn't idle.
    pub fn close(self) -> Result<Closed<S>, Core<S>>
        ensures closed { IfOk result (λ closed. IsIdle S.Key.cmp self × (closed ≡ self.facts)) }
        ensures refused { IfErr result (λ core. (core ≡ self) × (IsIdle S.Key.cmp self → ⊥)) }
    {
        if !self.idle() {
            return Err(self);
        }
        let Core {
            facts,
            queue: _,
            out: _,
            readers: _,
            count: _,
            limit: _,
        } = self;
        Ok(Closed { facts })
    }
}
