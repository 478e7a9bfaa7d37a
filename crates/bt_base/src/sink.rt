ghost use Rattle.std.specs.Prelude.{◌≡◌, ℕ, ◌<◌, ◌≤◌, List, [], Option, length, take, IfOk, OnErr, Ok};
ghost use Rattle.bt_base.specs.Shelf.{Rose};
ghost use Rattle.bt_base.specs.Sink.{Appended};

use crate::Failed;

/// Where a text is written to.
///
/// A sink may tell the bytes written so far, and counts the writes that failed, as a shelf does.
pub trait Sink {
    /// The bytes written so far, where the sink tells them.
    ghost told: { Self → Option (List ℕ) };

    /// How many writes have failed.
    ghost faults: { Self → ℕ };

    /// Appends a front of `piece`, as long as it likes but not empty, and answers its length. An empty
    /// `piece` is answered with 0. A write that failed appends nothing.
    fn put(&mut self, piece: &[u8]) -> Result<usize, Failed>
        ensures counts { faults self.old ≤ faults self.new }
        ensures within { IfOk result (λ n. n ≤ length piece.now) }
        ensures takes { IfOk result (λ n. 0 < length piece.now → 0 < n) }
        ensures appended { IfOk result (λ n. Appended (told self.old) (told self.new) (take n piece.now)) }
        ensures unchanged { OnErr result (told self.new ≡ told self.old) }
        ensures failed { OnErr result (Rose (faults self.old) (faults self.new)) }
        ensures empty { piece.now ≡ [] → (result ≡ Ok 0) × (faults self.new ≡ faults self.old) };
}
