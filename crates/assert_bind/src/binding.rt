ghost use Rattle.std.specs.Prelude.{◌≡◌, MatchResult, IfOk, IfSome, All};
ghost use Rattle.std.specs.Option.{option_copied};
ghost use Rattle.assert_lang.specs.Bounds.{AssertsWithin, IsCount};
ghost use Rattle.assert_bind.specs.Binding.{binding, roots, stubs, loops, ends, stub, never, range, listed, repeats};
ghost use Rattle.assert_bind.specs.Body.{IsRefusalOf, SpeaksOfCodeIn};
ghost use Rattle.assert_bind.specs.Index.{CountsWithin, IsSound};

use crate::indexing::{about, bound_all};
use crate::parts::{count_in, ends, loops, range_in, roots, stubs, targets_in, time_in};
use crate::subject::Subject;
use crate::{BindRefusal, BoundAssertion, LoopLine};
use assert_lang::Assertion;
use bt_image::Image;
use std::alloc::Global;
use std::collections::BTreeMap;
use std::marker::Model;

/// Assertions that are bound to an image. Contracts see the list of them, in their file's order. Each count and
/// time in it is from 1 to 2^62 - 1 and each register from 1 to 31, and no two assertions speak of the same: at
/// most one is a root or a stub with an entry, a `never` of an instruction, an `at` of an instruction and a
/// register, a `jump` or a `call` of an instruction, or a `loop` of a head. A look-up takes logarithmic time.
#[derive(Drop)]
pub struct Binding {
    /// The assertions, in their file's order.
    list: Vec<BoundAssertion>,
    /// Where the one about each subject stands.
    places: BTreeMap<Subject, usize>,
    /// The entries of the roots.
    roots: Vec<u32>,
    /// The entries of the stubs.
    stubs: Vec<u32>,
    /// The loops.
    loops: Vec<LoopLine>,
    /// The ends of the ranges.
    ends: Vec<i32>,
}

impl Model for Binding {
    ghost use Rattle.std.specs.Prelude.{List};
    ghost use Rattle.assert_bind.specs.Index.{IsBinding};
    ghost use Rattle.assert_bind.specs.declared.body.BoundAssertion.{BoundAssertion};

    ghost Value = { List BoundAssertion };

    ghost view = { λ b. b.list.items };

    ghost invariant = { λ b. IsBinding b.list.items b.places b.roots.items b.stubs.items b.loops.items b.ends.items };
}

/// Binds assertions to an image, in their order.
///
/// The address of a name is that of the function with this name in the image, of a name with an offset so many
/// bytes behind it, modulo 2^32, and of an address itself. Each assertion is refused for the first of these that
/// holds: for its places from left to right, the image has no function of its name (`NoName`) or its address
/// isn't one of code (`NotCode`); the lower end of its range is above the upper one (`EmptyRange`); an earlier
/// assertion speaks of the same (`Conflict`, with the earlier one's line): both are a root or a stub with one
/// entry, both a `never` or both a `loop` of one address, both an `at` of one address and register, or both a
/// `jump` or a `call` of one address. The list's refusal is that of its first assertion that is refused. `Want`
/// comes only where memory is refused.
///
/// As in what is parsed, each count and time is from 1 to 2^62 - 1 and each register from 1 to 31.
pub fn bind(alloc: Global, list: &[Assertion], image: &Image) -> Result<Binding, BindRefusal>
    requires { All AssertsWithin list.now }
    ensures value { MatchResult result (λ bound. binding image.now list.now ≡ Ok bound) (IsRefusalOf (binding image.now list.now)) }
    ensures sound { IfOk result IsSound }
    ensures code { IfOk result (All (SpeaksOfCodeIn image.now)) }
{
    let bound = bound_all(alloc, image, list)?;
    let roots = roots(alloc, &bound.list)?;
    let stubs = stubs(alloc, &bound.list)?;
    let loops = loops(alloc, &bound.list)?;
    let ends = ends(alloc, &bound.list)?;
    Ok(Binding {
        list: bound.list,
        places: bound.places,
        roots,
        stubs,
        loops,
        ends,
    })
}

impl Binding {
    /// The assertions, in the file's order.
    pub fn assertions(&self) -> &[BoundAssertion]
        ensures { result.now ≡ self.now }
    {
        &self.list
    }

    /// Does nothing; its contract is what holds of each binding: its counts and times are from 1 to 2^62 - 1 and its
    /// registers from 1 to 31, and no two of its assertions speak of the same.
    pub fn sound(&self)
        ensures { IsSound self.now }
    {
        let _ = &self.list;
    }

    /// The entries of the roots, in the file's order.
    pub fn roots(&self) -> &[u32]
        ensures { result.now ≡ roots self.now }
    {
        &self.roots
    }

    /// The entries of the stubs, each once, in the file's order.
    pub fn stubs(&self) -> &[u32]
        ensures { result.now ≡ stubs self.now }
    {
        &self.stubs
    }

    /// The cycles that the stub with this entry takes at most. None exactly where no stub has it.
    pub fn stub(&self, entry: u32) -> Option<u64>
        ensures value { result ≡ stub self.now entry }
        ensures within { IfSome result IsCount }
    {
        match about(&self.list, &self.places, Subject::Entry(entry)) {
            None => None,
            Some(assertion) => time_in(&assertion.body),
        }
    }

    /// Whether the instruction at an address is asserted not to be reached.
    pub fn never(&self, pc: u32) -> bool
        ensures { result ≡ never self.now pc }
    {
        about(&self.list, &self.places, Subject::Reach(pc)).is_some()
    }

    /// The least and the greatest word, read with sign, that a register is asserted to hold at an instruction.
    /// None exactly where nothing is asserted of it.
    pub fn range(&self, pc: u32, r: u8) -> Option<(i32, i32)>
        ensures { result ≡ range self.now pc r }
    {
        match about(&self.list, &self.places, Subject::Word(pc, r)) {
            None => None,
            Some(assertion) => range_in(&assertion.body),
        }
    }

    /// The addresses that are listed for the jump or call at an address, in the line's order. None exactly where
    /// no list stands for it.
    pub fn listed(&self, pc: u32) -> Option<&[u32]>
        ensures { option_copied result ≡ listed self.now pc }
    {
        match about(&self.list, &self.places, Subject::Targets(pc)) {
            None => None,
            Some(assertion) => targets_in(&assertion.body),
        }
    }

    /// How often the loop's head at an address is passed at most each time that the loop is entered. None exactly
    /// where no loop is asserted to have this head.
    pub fn repeats(&self, pc: u32) -> Option<u64>
        ensures value { result ≡ repeats self.now pc }
        ensures within { IfSome result IsCount }
    {
        match about(&self.list, &self.places, Subject::Loop(pc)) {
            None => None,
            Some(assertion) => count_in(&assertion.body),
        }
    }

    /// The loops, in the file's order.
    pub fn loops(&self) -> &[LoopLine]
        ensures value { result.now ≡ loops self.now }
        ensures within { All CountsWithin result.now }
    {
        &self.loops
    }

    /// For each range in the file's order its lower and then its upper end.
    pub fn ends(&self) -> &[i32]
        ensures { result.now ≡ ends self.now }
    {
        &self.ends
    }
}
