ghost use Rattle.std.specs.Prelude.{◌≡◌, ℕ, ◌≤◌, List, [], ◌∷◌, Option, length, IfOk, IsErrOf, Ok};
ghost use Rattle.bt_base.specs.Ask.{Ask, given_by};
ghost use Rattle.bt_base.specs.Shelf.{TellsTheSame, NoneFalls, Rose, Told, Gives};

use thiserror::Error;

/// Why a fetch gave nothing.
#[derive(Clone, Copy, Debug, PartialEq, Eq, Error)]
pub enum NoFetch {
    #[error("the read failed")]
    Failed,
    #[error("out of memory")]
    Want,
}

/// Where files are read from: bytes under names.
///
/// A shelf may tell which bytes lie under a name, and counts for each name the reads that failed.
/// A count never falls; one that stands at its greatest value, 2^64 - 1, counts as risen.
pub trait Shelf {
    /// The bytes under a name, where the shelf tells them.
    ghost told: { Self → List ℕ → Option (List ℕ) };

    /// How many reads of a name have failed.
    ghost faults: { Self → List ℕ → ℕ };

    /// What was asked so far and how many bytes each ask gave, the newest first.
    ghost asked: { Self → List Ask };

    /// Puts the bytes under `name` from byte `at` on at the front of `into`, as many as it likes but
    /// for none, and answers how many: 0 exactly at or past the end, or for an empty `into`.
    fn fetch(&mut self, name: &str, at: u64, into: &mut [u8]) -> Result<usize, NoFetch>
        ensures same { TellsTheSame (told self.old) (told self.new) }
        ensures asked { asked self.new ≡ (name.now, at, length into.old, given_by result) ∷ asked self.old }
        ensures counts { NoneFalls (faults self.old) (faults self.new) }
        ensures within { IfOk result (λ n. n ≤ length into.old) }
        ensures given { IfOk result (λ n. Told (told self.old) name.now (λ bytes. Gives bytes at into.new n)) }
        ensures failed { IsErrOf result NoFetch.Failed → Rose (faults self.old name.now) (faults self.new name.now) }
        ensures empty { into.old ≡ [] → (result ≡ Ok 0) × (faults self.new ≡ faults self.old) };
}
