ghost use Rattle.std.specs.Prelude.{◌≡◌, ◌+◌, ◌-◌, ◌<◌, ◌≤◌, ℕ, Option, Some, None, IfSome, IfNone};
ghost use Rattle.std.specs.Iterator.{at_most};
ghost use Rattle.std.specs.Option.{option_map};
ghost use Rattle.edge_publish.specs.Receipt.{Shown, IsOf, index_of};
ghost use Rattle.edge_publish.specs.Look.{IsNext, IsOver, IsStep, IsOwn};

use crate::board::{About, Board, Receipt};
use std::marker::Model;

/// A look over a board: an iterator of pairs of index and key, by rising index.
///
/// Its contract is the meaning of its next step: each pair is shown by a receipt of the board, each key meets the
/// board's rule, and the pair of the receipt that it was given comes before the end, if it starts at most at that
/// receipt's index.
#[derive(Drop)]
pub struct Look<'a, K, N: About<K>> {
    board: &'a Board<K, N>,
    own: Option<&'a Receipt<K, N>>,
    next: usize,
    end: usize,
    seen: Option<Receipt<K, N>>,
}

impl<'a, K, N: About<K>> Model for Look<'a, K, N> {
    ghost use Rattle.std.specs.Option.{option_map};
    ghost use Rattle.edge_publish.specs.Look.{Sight, sight_coded, IsOwn};

    ghost Value = { Sight K };

    ghost coded = { sight_coded K.code };

    ghost view = { λ look. record { board = look.board.now; own = option_map (λ r. r.now) look.own; next = look.next; end = look.end; seen = look.seen } };

    ghost invariant = { λ look. IsOwn look.board.now (option_map (λ r. r.now) look.own) look.end };
}

/// The receipt of the first key on the board from an index on and before an end.
fn next_receipt<K, N: About<K>>(
    board: &Board<K, N>,
    own: Option<&Receipt<K, N>>,
    from: usize,
    end: usize,
) -> Option<Receipt<K, N>>
    requires { IsOwn board.now (option_map (λ r. r.now) own) end }
    ensures some { IfSome result (λ receipt. IsNext board.now (option_map (λ r. r.now) own.entry) from end receipt) }
    ensures none { IfNone result (IsOver (option_map (λ r. r.now) own.entry) from) }
{
    for index in from..end {
        match board.receipt_at(index, own) {
            Some(receipt) => return Some(receipt),
            None => {}
        }
    }
    None
}

impl<'a, K, N: About<K>> Look<'a, K, N> {
    /// A look over a board from an index on, up to an end past the receipt's index.
    pub(crate) fn new(
        board: &'a Board<K, N>,
        own: Option<&'a Receipt<K, N>>,
        next: usize,
        end: usize,
    ) -> Look<'a, K, N>
        requires { IsOwn board.now (option_map (λ r. r.now) own) end }
        ensures board { result.board ≡ board.now }
        ensures own { result.own ≡ option_map (λ r. r.now) own.entry }
        ensures next { result.next ≡ next }
        ensures end { result.end ≡ end }
        ensures seen { result.seen ≡ None }
    {
        Look {
            board,
            own,
            next,
            end,
            seen: None,
        }
    }

    /// The receipt of the pair that was given last, if one was; it stays where a step gives none.
    pub fn receipt(&self) -> Option<&Receipt<K, N>>
        ensures { option_map (λ r. r.now) result ≡ self.now.seen }
    {
        self.seen.as_ref()
    }
}

impl<'a, K, N: About<K>> Iterator for Look<'a, K, N> {
    type Item = (usize, &'a K);

    ghost next_gives = { λ old item new. IsStep N.holds (λ key. key.now) old item new };

    ghost remaining = { λ look. at_most (look.end - look.next) };

    fn next(&mut self) -> Option<(usize, &'a K)> {
        match next_receipt(self.board, self.own, self.next, self.end) {
            Some(receipt) => {
                let index = receipt.index();
                let key = self.board.at(&receipt);
                self.next = index + 1;
                self.seen = Some(receipt);
                Some((index, key))
            }
            None => {
                self.next = self.next.max(self.end);
                None
            }
        }
    }
}
