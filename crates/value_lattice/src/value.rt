use crate::Words;
use crate::ends::ends_of;
use crate::order::{place, rank};
use bt_base::Want;
use std::alloc::Global;

/// What is known of a word.
///
/// It takes 40 bytes, and more memory only where it is a set of two words or more.
#[derive(Debug, Drop)]
pub enum Value {
    /// One of these words.
    Words(Words),
    /// A word that is, read with sign, from `lo` to `hi`: both are thresholds, and more than 128 words
    /// stand between them.
    Range { lo: i32, hi: i32 },
    /// The return address of the frame.
    Ret,
}

impl Value {
    ghost use Rattle.std.specs.Prelude.{◌≡◌, ◌∷◌, [], ◌↔◌, ℕ, List, ◌^◌, ◌<◌, pos, negsuc, IsTrue, IfOk};
    ghost use Rattle.value_lattice.specs.Ends.{AreEnds, low_end, high_end};
    ghost use Rattle.value_lattice.specs.Thresholds.{IsThresholds};
    ghost use Rattle.value_lattice.specs.Test.{may_have};
    ghost use Rattle.value_lattice.specs.Value.{Has, IsOver, MayHave, is_zero, one_of};

    /// Any word.
    pub fn top() -> Value
        ensures range { result ≡ Value.Range (negsuc 2147483647) (pos 2147483647) }
        ensures all { (w ra : ℕ) → w < 2 ^ 32 → Has result w ra }
        ensures over { (t : List ℕ) → IsThresholds t → IsOver t result }
    {
        Value::Range {
            lo: i32::MIN,
            hi: i32::MAX,
        }
    }

    /// One word. It takes no memory, and so is never in want of it.
    pub fn word(w: u32) -> Result<Value, Want>
        ensures value { result ≡ Ok (Value.Words (w ∷ [])) }
        ensures over { (t : List ℕ) → IfOk result (IsOver t) }
    {
        Ok(Value::Words(Words::one(w)))
    }

    /// Whether the value has a word where the return address is `ra`.
    pub fn has(&self, w: u32, ra: u32) -> bool
        ensures { IsTrue result ↔ Has self.now w ra }
    {
        match self {
            Value::Words(words) => words.has(w),
            Value::Range { lo, hi } => rank(*lo) <= place(w) && place(w) <= rank(*hi),
            Value::Ret => w == ra,
        }
    }

    /// Whether the value has a word where the return address is a certain one: so `Ret` may be any word.
    pub fn may_have(&self, w: u32) -> bool
        ensures words { IsTrue result ↔ MayHave self.now w }
        ensures value { result ≡ may_have self.now w }
    {
        self.has(w, w)
    }

    /// The one word of a set of one.
    pub fn one_word(&self) -> Option<u32>
        ensures { result ≡ one_of self.now }
    {
        match self {
            Value::Words(words) => words.only(),
            Value::Range { .. } => None,
            Value::Ret => None,
        }
    }

    /// Whether the value is exactly the word 0.
    pub fn is_zero(&self) -> bool
        ensures { result ≡ is_zero self.now }
    {
        match self.one_word() {
            Some(word) => word == 0,
            None => false,
        }
    }

    /// The same value.
    pub fn copy(&self, alloc: Global) -> Result<Value, Want>
        ensures { IfOk result (λ v. v ≡ self.now) }
    {
        match self {
            Value::Words(words) => Ok(Value::Words(words.copy(alloc)?)),
            Value::Range { lo, hi } => Ok(Value::Range { lo: *lo, hi: *hi }),
            Value::Ret => Ok(Value::Ret),
        }
    }

    /// The places of the least and the greatest word; those of all words for the return address.
    pub fn ends(&self) -> (u32, u32)
        ensures ends { AreEnds self.now result.0 result.1 }
        ensures low { result.0 ≡ low_end self.now }
        ensures high { result.1 ≡ high_end self.now }
    {
        match self {
            Value::Words(words) => ends_of(words.members()),
            Value::Range { lo, hi } => (rank(*lo), rank(*hi)),
            Value::Ret => (0, u32::MAX),
        }
    }
}
