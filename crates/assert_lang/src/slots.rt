//! What the words of a line are, one after the other.
ghost use Rattle.std.specs.Prelude.{◌≡◌, ◌<◌, ◌≤◌, true, false, [], ◌∷◌, length, codes, if◌then◌else◌, MatchResult, IfOk, IfErr, OnOk};
ghost use Rattle.assert_lang.specs.Bounds.{IsCount, IsRegister};
ghost use Rattle.assert_lang.specs.Keyword.{keyword_of};
ghost use Rattle.assert_lang.specs.Number.{count_of, range_of};
ghost use Rattle.assert_lang.specs.Register.{register_of};
ghost use Rattle.assert_lang.specs.Spot.{spot_of};
ghost use Rattle.assert_lang.specs.Statement.{first_as, itself, ended, listed, IsFaultOf};
ghost use Rattle.assert_lang.specs.declared.assertion.Body.{Body};

use crate::keyword::{Keyword, keyword_of};
use crate::numbers::{count_of, range_of};
use crate::places::spot_of;
use crate::refusal::Fault;
use crate::registers::register_of;
use crate::words::{Token, Words};
use crate::{Expected, Spot, Spots};
use std::alloc::Global;

/// The next word, which was expected to be something.
fn next_word<'a>(words: &mut Words<'a>, expected: Expected) -> Result<Token<'a>, Fault>
    ensures word { MatchResult result (λ token. words.old.tokens ≡ record { word = token.word.now; column = token.column } ∷ words.new.tokens) (λ _. words.old.tokens ≡ []) }
    ensures fault { IfErr result (λ fault. fault ≡ Fault.Misfit words.old.end expected) }
    ensures end { words.new.end ≡ words.old.end }
{
    match words.next() {
        None => Err(Fault::Misfit {
            column: words.end(),
            expected,
        }),
        Some(token) => Ok(token),
    }
}

impl Token<'_> {
    /// The fault of a word that isn't what was expected.
    fn misfit(&self, expected: Expected) -> Fault
        ensures { result ≡ Fault.Misfit self.now.column expected }
    {
        Fault::Misfit {
            column: self.column,
            expected,
        }
    }
}

/// The next word as a keyword.
pub fn keyword(words: &mut Words<'_>) -> Result<Keyword, Fault>
    ensures { MatchResult result (λ keyword. first_as keyword_of Expected.Keyword words.old ≡ Ok (keyword, words.new)) (λ fault. first_as keyword_of Expected.Keyword words.old ≡ Err fault) }
{
    let token = next_word(words, Expected::Keyword)?;
    match keyword_of(token.word) {
        None => Err(token.misfit(Expected::Keyword)),
        Some(keyword) => Ok(keyword),
    }
}

/// The next word as a register.
pub fn register(words: &mut Words<'_>) -> Result<u8, Fault>
    ensures within { IfOk result IsRegister }
    ensures value { MatchResult result (λ register. first_as register_of Expected.Register words.old ≡ Ok (register, words.new)) (λ fault. first_as register_of Expected.Register words.old ≡ Err fault) }
{
    let token = next_word(words, Expected::Register)?;
    match register_of(token.word) {
        None => Err(token.misfit(Expected::Register)),
        Some(register) => Ok(register),
    }
}

/// The next word as a range.
pub fn range(words: &mut Words<'_>) -> Result<(i32, i32), Fault>
    ensures { MatchResult result (λ range. first_as range_of Expected.Range words.old ≡ Ok (range, words.new)) (λ fault. first_as range_of Expected.Range words.old ≡ Err fault) }
{
    let token = next_word(words, Expected::Range)?;
    match range_of(token.word) {
        None => Err(token.misfit(Expected::Range)),
        Some(range) => Ok(range),
    }
}

/// The next word as a count.
pub fn count(words: &mut Words<'_>) -> Result<u64, Fault>
    ensures within { IfOk result IsCount }
    ensures value { MatchResult result (λ count. first_as count_of Expected.Count words.old ≡ Ok (count, words.new)) (λ fault. first_as count_of Expected.Count words.old ≡ Err fault) }
{
    let token = next_word(words, Expected::Count)?;
    match count_of(token.word) {
        None => Err(token.misfit(Expected::Count)),
        Some(count) => Ok(count),
    }
}

/// The next word, which is to be this one.
pub fn the_word(words: &mut Words<'_>, text: &[u8], expected: Expected) -> Result<(), Fault>
    ensures { MatchResult result (λ _. first_as (itself text.now) expected words.old ≡ Ok (text.now, words.new)) (λ fault. first_as (itself text.now) expected words.old ≡ Err fault) }
{
    let token = next_word(words, expected)?;
    if token.word == text {
        Ok(())
    } else {
        Err(token.misfit(expected))
    }
}

/// The next word as a place.
pub fn place(alloc: Global, words: &mut Words<'_>) -> Result<Spot, Fault>
    ensures value { MatchResult result (λ spot. first_as spot_of Expected.Place words.old ≡ Ok (spot, words.new)) (IsFaultOf (first_as spot_of Expected.Place words.old)) }
    ensures shorter { OnOk result (length words.new.tokens < length words.old.tokens) }
{
    let token = next_word(words, Expected::Place)?;
    match spot_of(alloc, token.word)? {
        None => Err(token.misfit(Expected::Place)),
        Some(spot) => Ok(spot),
    }
}

/// That no word is left.
pub fn end(words: &mut Words<'_>) -> Result<(), Fault>
    ensures { MatchResult result (λ _. (body : Body) → ended body words.old.tokens ≡ Ok body) (λ fault. (body : Body) → ended body words.old.tokens ≡ Err fault) }
{
    match words.next() {
        None => Ok(()),
        Some(token) => Err(token.misfit(Expected::End)),
    }
}

/// Whether a comma comes next, rather than the line's end.
fn comma(words: &mut Words<'_>) -> Result<bool, Fault>
    ensures value { MatchResult result (λ more. listed false words.old.end words.old.tokens ≡ (if more then listed true words.new.end words.new.tokens else Ok [])) (λ fault. listed false words.old.end words.old.tokens ≡ Err fault) }
    ensures shorter { length words.new.tokens ≤ length words.old.tokens }
{
    match words.next() {
        None => Ok(false),
        Some(token) => if token.word == b",".as_slice() {
            Ok(true)
        } else {
            Err(token.misfit(Expected::End))
        },
    }
}

/// The places that are left, with commas between them.
pub fn places(alloc: Global, words: &mut Words<'_>) -> Result<Spots, Fault>
    ensures { MatchResult result (λ spots. listed true words.old.end words.old.tokens ≡ Ok spots) (IsFaultOf (listed true words.old.end words.old.tokens)) }
{
    let mut spots = Vec::new(alloc);
    loop {
        spots.push(place(alloc, words)?)?;
        if !comma(words)? {
            return Ok(Spots::new(spots));
        }
    }
}
