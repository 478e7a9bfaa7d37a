ghost use Rattle.std.specs.Prelude.{◌≡◌, ◌+◌, ◌<◌, ◌^◌, ℕ, Option, Some, None, IfOk, IfErr, IfSome, IsSome};
ghost use Rattle.std.specs.Option.{option_map};
ghost use Rattle.edge_publish.specs.Receipt.{Shown, IsOf, index_of, key_of};
ghost use Rattle.edge_publish.specs.Look.{IsRead, IsOwn};

use crate::sight::Look;
use boxcar::tag::Tag;
use boxcar::{Keeps, Pushed};
use bt_base::Want;
use std::alloc::Global;
use std::marker::{Model, PhantomData};
use std::sync::Wait;

/// A rule over keys, which a board's contracts name. It has no calls.
pub trait About<K> {
    /// What holds of every key on the board.
    ghost holds: { K → Type 0 };
}

/// A rule over keys as `boxcar` takes it: it is the same at every index.
pub struct Ruled<N> {
    rule: PhantomData<N>,
}

impl<K, N: About<K>> Keeps<K> for Ruled<N> {
    ghost holds = { λ _ _ key. N.holds key };
}

/// A board that only grows: keys are published on it and read from it by any thread, with no lock.
///
/// A contract sees which board it is, and not what lies on it.
#[derive(Drop)]
pub struct Board<K, N: About<K>> {
    keys: boxcar::Vec<K, Global, Ruled<N>>,
}

impl<K, N: About<K>> Model for Board<K, N> {
    ghost use Rattle.edge_publish.specs.Board.{BoardId, board_coded};

    ghost Value = { BoardId };

    ghost coded = { board_coded };

    ghost view = { λ board. board.keys };
}

/// What shows which key was published at which index of which board. It lasts as long as the board.
#[derive(Drop)]
pub struct Receipt<K, N: About<K>> {
    place: Pushed<K, Global, Ruled<N>>,
}

impl<K, N: About<K>> Model for Receipt<K, N> {
    ghost use Rattle.std.specs.Prelude.{◌<◌, ◌+◌, ◌^◌};
    ghost use Rattle.edge_publish.specs.Receipt.{Shown, shown_coded};

    ghost Value = { Shown K };

    ghost coded = { shown_coded K.code };

    ghost view = { λ receipt. receipt.place };

    ghost invariant = { λ receipt. receipt.place.index + 1 < 2 ^ 64 };
}

impl<K, N: About<K>> Receipt<K, N> {
    /// The index on the board at which the key was published.
    pub fn index(&self) -> usize
        ensures index { result ≡ index_of self.now }
        ensures room { result + 1 < 2 ^ 64 }
    {
        self.place.index()
    }

    /// The same receipt once more.
    pub fn again(&self) -> Receipt<K, N>
        ensures { result ≡ self.now }
    {
        Receipt {
            place: self.place.again(),
        }
    }
}

impl<K: Copy, N: About<K>> Board<K, N> {
    /// An empty board.
    pub fn new(alloc: Global) -> Result<Board<K, N>, Want> {
        let keys = boxcar::Vec::with_rule(alloc, Tag::empty())?;
        Ok(Board { keys })
    }

    /// Publishes a key that meets the board's rule, and gives the receipt that reads it back. Where memory or
    /// indexes are wanting the key comes back.
    pub fn publish<R: Wait>(&self, rt: &R, key: K) -> Result<Receipt<K, N>, (K, Want)>
        requires { N.holds key }
        ensures board { IfOk result (λ receipt. IsOf self.now receipt) }
        ensures key { IfOk result (λ receipt. key_of receipt ≡ key) }
        ensures back { IfErr result (λ refused. refused.0 ≡ key) }
    {
        let Ok(place) = self.keys.push_shown(rt, key) else {
            return Err((key, Want));
        };
        if place.index() == usize::MAX {
            return Err((key, Want));
        }
        Ok(Receipt { place })
    }
}

impl<K, N: About<K>> Board<K, N> {
    /// The key that was published with this receipt, for good.
    pub fn at(&self, receipt: &Receipt<K, N>) -> &K
        requires { IsOf self.now receipt.now }
        ensures key { result.now ≡ key_of receipt.now }
        ensures rule { N.holds result.now }
    {
        self.keys.get_seen(receipt.index(), &receipt.place).unwrap()
    }

    /// The receipt of the key at an index, if there is one now; at the index of a receipt that receipt.
    pub(crate) fn receipt_at(
        &self,
        index: usize,
        own: Option<&Receipt<K, N>>,
    ) -> Option<Receipt<K, N>>
        requires own { (receipt : Shown K) → option_map (λ r. r.now) own ≡ Some receipt → IsOf self.now receipt }
        requires room { index + 1 < 2 ^ 64 }
        ensures read { IfSome result (λ receipt. IsRead self.now (option_map (λ r. r.now) own.entry) index receipt) }
        ensures found { (receipt : Shown K) → option_map (λ r. r.now) own.entry ≡ Some receipt → index ≡ index_of receipt → IsSome result }
    {
        if let Some(receipt) = own {
            if receipt.index() == index {
                return Some(receipt.again());
            }
        }
        match self.keys.witness(index) {
            Some(place) => Some(Receipt { place }),
            None => None,
        }
    }

    /// How many keys were seen to lie on the board.
    fn count(&self) -> usize {
        self.keys.count()
    }

    /// The keys on the board from an index on, as pairs of index and key, by rising index; the look holds the
    /// receipt of the pair that it gave last. Where a receipt is given whose index is at least `from`, its pair
    /// comes before the end. Keys that other threads publish meanwhile may be missed.
    pub fn look<'a>(&'a self, from: usize, own: Option<&'a Receipt<K, N>>) -> Look<'a, K, N>
        requires { IfSome own (λ receipt. IsOf self.now receipt.now) }
        ensures board { result.board ≡ self.now }
        ensures own { result.own ≡ option_map (λ r. r.now) own.entry }
        ensures next { result.next ≡ from }
        ensures seen { result.seen ≡ None }
    {
        let end = match own {
            Some(receipt) => self.count().max(receipt.index() + 1),
            None => self.count(),
        };
        Look::new(self, own, from, end)
    }
}
