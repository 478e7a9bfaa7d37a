ghost use Rattle.std.specs.Prelude.{◌≡◌, IfOk, IfErr};
ghost use Rattle.flow_core.specs.Claim.{IsClaimOf, IsAnswerOf};

use bt_base::Want;
use flow_system::{Facts, System};
use std::alloc::Global;
use std::marker::Model;

/// A key that is out to be looked at, with copies of the facts that it reads.
///
/// It can't be copied. Only `Core::merge`, of the answer made of it, and `Core::give_back` end it; one that is dropped
/// stays out until the core is driven.
pub struct Claim<S: System> {
    key: S::Key,
    copies: Facts<S::Key, S::Val>,
}

impl<S: System> Model for Claim<S> {
    ghost use Rattle.flow_core.specs.Claim.{ClaimState};

    ghost Value = { ClaimState S.Key S.Val };

    ghost view = { λ c. record { key = c.key; copies = c.copies } };
}

impl<S: System> Drop for Claim<S> {
    fn drop(self) {
        let Claim { key: _, copies: _ } = self;
    }
}

/// A claim with the pieces that its key gives over its copies.
pub struct Answer<S: System> {
    claim: Claim<S>,
    pieces: Vec<(S::Key, S::Val)>,
}

impl<S: System> Model for Answer<S> {
    ghost use Rattle.flow_core.specs.Claim.{AnswerState};

    ghost Value = { AnswerState S.Key S.Val };

    ghost view = { λ a. record { claim = a.claim; pieces = a.pieces.items } };
}

impl<S: System> Drop for Answer<S> {
    fn drop(self) {
        let Answer {
            claim: _,
            pieces: _,
        } = self;
    }
}

impl<S: System> Claim<S> {
    /// A claim of a key with these copies.
    pub(crate) fn new(key: S::Key, copies: Facts<S::Key, S::Val>) -> Claim<S>
        ensures key { result.key ≡ key }
        ensures copies { result.copies ≡ copies }
    {
        Claim { key, copies }
    }

    /// The key that is to be looked at.
    pub fn key(&self) -> S::Key
        ensures { result ≡ self.now.key }
    {
        self.key
    }

    /// The copies of the facts that the key reads.
    pub(crate) fn copies(&self) -> &Facts<S::Key, S::Val>
        ensures { result.now ≡ self.now.copies }
    {
        &self.copies
    }

    /// Works out what the key gives over the copies. Want hands the claim back.
    pub fn work(self, alloc: Global, system: &S) -> Result<Answer<S>, (Claim<S>, Want)>
        requires { IsClaimOf S.Key.cmp (S.rules system.now) self }
        ensures of { IfOk result (IsAnswerOf S.Key.cmp (S.rules system.now)) }
        ensures claim { IfOk result (λ answer. answer.claim ≡ self) }
        ensures refused { IfErr result (λ refused. refused.0 ≡ self) }
    {
        match system.give(alloc, self.key, &self.copies) {
            Ok(pieces) => Ok(Answer {
                claim: self,
                pieces,
            }),
            Err(want) => Err((self, want)),
        }
    }
}

impl<S: System> Answer<S> {
    /// The claim that it was made of, without the pieces.
    pub fn claim(self) -> Claim<S>
        ensures { result ≡ self.claim }
    {
        let Answer { claim, pieces: _ } = self;
        claim
    }

    /// The claim, by reference.
    pub(crate) fn of(&self) -> &Claim<S>
        ensures { result.now ≡ self.now.claim }
    {
        &self.claim
    }

    /// The pieces.
    pub fn pieces(&self) -> &[(S::Key, S::Val)]
        ensures { result.now ≡ self.now.pieces }
    {
        &self.pieces
    }
}
