ghost use Rattle.std.specs.Prelude.{◌≡◌, ℕ, IfOk, IfErr, IfSome, IfNone, OnOk, OnErr, []};
ghost use Rattle.flow_core.specs.Absorb.{Absorbs};
ghost use Rattle.flow_core.specs.Claim.{IsClaimOf, IsAnswerOf};
ghost use Rattle.flow_core.specs.Core.{IsPart, IsPending, IsUnchanged};
ghost use Rattle.flow_core.specs.Event.{Merges, without_claim};
ghost use Rattle.flow_core.specs.Queue.{IsLeast};
ghost use Rattle.flow_core.specs.Refusal.{IsPassing, IsTooBig};
ghost use Rattle.flow_core.specs.Staged.{PiecesFit};
ghost use Rattle.flow_system.specs.State.{AllDue};
ghost use Rattle.part_pool.specs.Part.{IsKeptPart, PassesOthers, TakesOwn};

use crate::field::DueKeys;
use crate::mail::Mail;
use crate::telling::{ask_for_all, tell_pieces};
use bt_base::Want;
use edge_publish::Board;
use flow_core::{Answer, Claim, Core, GrowRefusal};
use flow_system::{Facts, Name, Parted, System};
use std::alloc::Global;
use std::marker::{Model, PhantomData};
use std::sync::Wait;

/// A part of a graph that is grown: a core over the keys of one number, with copies of the facts of other parts' keys.
///
/// Its type keeps that its facts fit and are due in the named system, and that it has the named limit. Its holder takes
/// claims of its own keys, merges their answers or gives them back, and joins due pieces that come from other parts.
pub struct Part<S: System, N: Name<S::Key, S::Val>> {
    core: Core<S>,
    number: u32,
    mail: Mail<S::Key>,
    name: PhantomData<N>,
}

impl<S: System, N: Name<S::Key, S::Val>> Model for Part<S, N> {
    ghost use Rattle.part_pool.specs.Part.{PartState, IsKeptPart};

    ghost Value = { PartState S.Key S.Val };

    ghost view = { λ p. record { number = p.number; core = p.core } };

    ghost invariant = { λ p. IsKeptPart S.Key.cmp N.rules N.limit p.core };
}

impl<S: System, N: Name<S::Key, S::Val>> Drop for Part<S, N> {
    fn drop(self) {
        let Part {
            core: _,
            number: _,
            mail: _,
            name: _,
        } = self;
    }
}

/// Passes over pending keys that aren't of the number, up to the first that is.
fn pass_others<S: Parted>(core: &mut Core<S>, system: &S, number: u32) -> Result<(), Want>
    requires { IsPart S.Key.cmp (S.rules system.now) core.old }
    ensures part { IsPart S.Key.cmp (S.rules system.now) core.new }
    ensures passed { PassesOthers S.Key.cmp (S.rules system.now) (λ k. S.part_of system.now k ≡ number) core.old core.new }
    ensures own { OnOk result ((k : S.Key) → IsLeast S.Key.cmp core.new.marks k → S.part_of system.now k ≡ number) }
{
    for _turn in 0..u64::MAX {
        match core.next() {
            None => return Ok(()),
            Some(k) => {
                if system.part(k) == number {
                    return Ok(());
                }
                core.pass_over();
            }
        }
    }
    Err(Want)
}

impl<S: Parted, N: Name<S::Key, S::Val>> Part<S, N> {
    /// A part with no facts.
    pub(crate) fn new(
        alloc: Global,
        system: &S,
        number: u32,
        limit: u64,
    ) -> Result<Part<S, N>, Want>
        requires named { S.rules system.now ≡ N.rules }
        requires limit { limit ≡ N.limit }
        ensures number { IfOk result (λ part. part.number ≡ number) }
        ensures none { IfOk result (λ part. part.core.facts ≡ []) }
    {
        let mail = Mail::new(alloc)?;
        Ok(Part {
            core: Core::empty(alloc, system, limit),
            number,
            mail,
            name: PhantomData,
        })
    }

    /// The facts of its own keys, and the copies.
    pub fn facts(&self) -> &Facts<S::Key, S::Val>
        ensures facts { result.now ≡ self.now.core.facts }
        ensures kept { IsKeptPart S.Key.cmp N.rules N.limit self.now.core }
    {
        self.core.facts()
    }

    /// Takes its least own pending key out to be looked at, with copies of the facts that it reads; None exactly where
    /// none is pending. Pending keys that aren't its own are passed over. Want takes nothing out.
    pub fn take(&mut self, alloc: Global, system: &S, worker: u32) -> Result<Option<Claim<S>>, Want>
        requires named { S.rules system.now ≡ N.rules }
        ensures number { self.new.number ≡ self.old.number }
        ensures taken { IfOk result (λ taken. IfSome taken (λ claim. TakesOwn S.Key.cmp N.rules (λ k. S.part_of system.now k ≡ self.old.number) self.old.core claim self.new.core)) }
        ensures of { IfOk result (λ taken. IfSome taken (IsClaimOf S.Key.cmp N.rules)) }
        ensures none { IfOk result (λ taken. IfNone taken ((k : S.Key) → S.part_of system.now k ≡ self.old.number → IsPending S.Key.cmp self.old.core k → ⊥)) }
        ensures same { IfOk result (λ taken. IfNone taken (PassesOthers S.Key.cmp (S.rules system.now) (λ k. S.part_of system.now k ≡ self.old.number) self.old.core self.new.core)) }
        ensures refused { OnErr result (PassesOthers S.Key.cmp (S.rules system.now) (λ k. S.part_of system.now k ≡ self.old.number) self.old.core self.new.core) }
    {
        pass_others(&mut self.core, system, self.number)?;
        self.core.take(alloc, system, worker)
    }

    /// Joins an answer's pieces to the facts, and ends its claim. It answers how many facts grew.
    ///
    /// Own keys that are new are put on the board before. Nodes says that the due graph has more counted keys than the
    /// limit. A refusal hands the answer back, and the facts are as before.
    pub fn merge<R: Wait>(
        &mut self,
        rt: &R,
        alloc: Global,
        system: &S,
        board: &Board<S::Key, DueKeys<S::Val, N>>,
        answer: Answer<S>,
    ) -> Result<usize, (Answer<S>, GrowRefusal)>
        requires named { S.rules system.now ≡ N.rules }
        requires of { IsAnswerOf S.Key.cmp N.rules answer }
        ensures number { self.new.number ≡ self.old.number }
        ensures merged { IfOk result (Merges S.Key.cmp N.rules self.old.core answer self.new.core) }
        ensures handed_back { IfErr result (λ refused. refused.0 ≡ answer) }
        ensures unchanged { OnErr result (IsUnchanged S.Key.cmp N.rules self.old.core self.new.core) }
        ensures too_big { IfErr result (λ refused. IsTooBig S.Key.cmp N.rules N.limit refused.1) }
    {
        let told = tell_pieces(
            rt,
            alloc,
            system,
            board,
            self.number,
            self.core.facts(),
            &mut self.mail,
            answer.pieces(),
            true,
        );
        match told {
            Ok(()) => self.core.merge(alloc, system, answer),
            Err(_) => Err((answer, GrowRefusal::Want)),
        }
    }

    /// Ends a claim without an answer: its key, where the facts have it, is pending again.
    pub fn give_back(&mut self, claim: Claim<S>)
        ensures number { self.new.number ≡ self.old.number }
        ensures returned { self.new.core ≡ without_claim S.Key.cmp self.old.core claim.key }
    {
        self.core.give_back(claim);
    }

    /// Joins due pieces that come from another part. It answers how many facts grew.
    ///
    /// Own keys that are new are put on the board before. Nodes says that the due graph has more counted keys than the
    /// limit. After a refusal the facts are as before.
    pub fn receive<R: Wait>(
        &mut self,
        rt: &R,
        alloc: Global,
        system: &S,
        board: &Board<S::Key, DueKeys<S::Val, N>>,
        pieces: &[(S::Key, S::Val)],
    ) -> Result<usize, GrowRefusal>
        requires named { S.rules system.now ≡ N.rules }
        requires pieces_fit { PiecesFit N.rules pieces.now }
        requires due { AllDue N.rules pieces.now }
        ensures number { self.new.number ≡ self.old.number }
        ensures joined { IfOk result (Absorbs S.Key.cmp N.rules self.old.core pieces.now self.new.core) }
        ensures unchanged { OnErr result (IsUnchanged S.Key.cmp N.rules self.old.core self.new.core) }
        ensures too_big { IfErr result (IsTooBig S.Key.cmp N.rules N.limit) }
    {
        tell_pieces(
            rt,
            alloc,
            system,
            board,
            self.number,
            self.core.facts(),
            &mut self.mail,
            pieces,
            false,
        )?;
        self.core.join(alloc, system, pieces)
    }

    /// Joins the due pieces of own keys with which the part begins.
    pub(crate) fn begin(
        &mut self,
        alloc: Global,
        system: &S,
        keys: &[S::Key],
        pieces: &[(S::Key, S::Val)],
    ) -> Result<usize, GrowRefusal>
        requires named { S.rules system.now ≡ N.rules }
        requires pieces_fit { PiecesFit N.rules pieces.now }
        requires due { AllDue N.rules pieces.now }
        ensures number { self.new.number ≡ self.old.number }
        ensures joined { IfOk result (Absorbs S.Key.cmp N.rules self.old.core pieces.now self.new.core) }
        ensures nodes { IfErr result (IsPassing S.Key.cmp N.rules self.old.core.facts pieces.now N.limit) }
    {
        ask_for_all(alloc, system, self.number, &mut self.mail, keys)?;
        self.core.join(alloc, system, pieces)
    }

    /// Whether there is anything to tell another part.
    pub(crate) fn has_mail(&self, part: u32) -> bool {
        self.mail.has_any(part)
    }

    /// Takes out the keys whose facts another part is to be handed.
    pub(crate) fn take_news(&mut self, alloc: Global, part: u32) -> Vec<S::Key>
        ensures { self.new ≡ self.old }
    {
        self.mail.take_news(alloc, part)
    }

    /// Takes out the keys whose facts another part is asked for.
    pub(crate) fn take_asks(&mut self, alloc: Global, part: u32) -> Vec<S::Key>
        ensures { self.new ≡ self.old }
    {
        self.mail.take_asks(alloc, part)
    }

    /// Notes that another part reads these own keys.
    pub(crate) fn add_readers(&mut self, part: u32, keys: &[S::Key]) -> Result<(), Want>
        ensures { self.new ≡ self.old }
    {
        self.mail.add_readers(part, keys)
    }
}
