//! What a whole look gives, as the contract of a function that does nothing.
ghost use Rattle.edge_publish.specs.Look.{GiveOwn};

use crate::board::About;

/// A look that gave these pairs and was gone over to its end gave the pair of the receipt that it was given, if it
/// began at most at that receipt's index.
pub fn looks_give_own<K, N: About<K>>(_pairs: &[(usize, &K)])
    ensures { GiveOwn N.holds (λ key. key.now) _pairs.now }
{}
