//! The lines of a table, one after the other.
ghost use Rattle.std.specs.Prelude.{◌≡◌, ◌+◌, ◌^◌, ◌<◌, ◌≤◌, ◌==◌, ℕ, [], ◌∷◌, length, None, Some, Ok, All, slice_set, MatchOption, MatchResult, IfOk, IfSome, OnOk};
ghost use Rattle.std.specs.Str.Lines.{lines};
ghost use Rattle.cycle_table.specs.Class.{place_of, count_of, cost_at};
ghost use Rattle.cycle_table.specs.Row.{rows_from, version_named, header_of, says, greatest_cost, costs_as};
ghost use Rattle.cycle_table.specs.Table.{body_of, completed, fault_said, AreCosts};
ghost use Rattle.line_text.specs.LineText.{words_of};
ghost use Rattle.line_text.specs.Numeral.{number_up_to};
ghost use Rattle.sparc_decode.specs.declared.cost_class.CostClass.{CostClass};

use crate::classes::{self, COUNT, Version};
use crate::{CycleRefusal, Why};
use line_text::{next_line, next_word, number_up_to, uncommented};
use sparc_decode::CostClass;

/// The greatest cost.
pub const MOST: u64 = 1_000_000;

/// A line that has words.
#[derive(Clone, Copy, Debug)]
pub struct NextRow<'a> {
    /// Its number, from 1.
    pub number: u32,
    /// Its first word.
    pub name: &'a [u8],
    /// What follows that word, up to the line's end or comment.
    pub words: &'a [u8],
    /// The text behind the line.
    pub after: &'a [u8],
}

/// The next line that has words in a text with so many lines before it.
pub fn next_row(text: &[u8], before: u32) -> Option<NextRow<'_>>
    requires { before + length text.now < 2 ^ 32 }
    ensures row { MatchOption result (rows_from (before + 1) (lines text.now) ≡ [])
        (λ row. rows_from (before + 1) (lines text.now) ≡ record { number = row.number; words = row.name.now ∷ words_of row.words.now } ∷ rows_from (row.number + 1) (lines row.after.now)) }
    ensures later { IfSome result (λ row. before < row.number) }
    ensures shorter { IfSome result (λ row. row.number + length row.after.now ≤ before + length text.now) }
{
    let mut rest = text;
    let mut number = before;
    while let Some(line) = next_line(rest) {
        number += 1;
        rest = line.rest;
        if let Some(word) = next_word(uncommented(line.text)) {
            return Some(NextRow {
                number,
                name: word.text,
                words: word.rest,
                after: rest,
            });
        }
    }
    None
}

/// The version that a word is.
fn version_named(word: &[u8]) -> Option<Version>
    ensures { result ≡ version_named word.now }
{
    if word == b"1".as_slice() {
        Some(Version::One)
    } else if word == b"2".as_slice() {
        Some(Version::Two)
    } else {
        None
    }
}

/// The version of a table whose first line this is, if it is a header.
pub fn header_of(name: &[u8], words: &[u8]) -> Option<Version>
    ensures { result ≡ header_of (name.now ∷ words_of words.now) }
{
    let version = next_word(words)?;
    if next_word(version.rest).is_none() && name == b"cycles".as_slice() {
        version_named(version.text)
    } else {
        None
    }
}

/// The cost that a word is, if it is one.
fn cost_of(word: &[u8]) -> Option<u32>
    ensures value { result ≡ number_up_to greatest_cost word.now }
    ensures most { IfSome result (λ cost. cost ≤ 1000000) }
{
    match number_up_to(word, MOST) {
        None => None,
        Some(cost) => Some(cost as u32),
    }
}

/// What follows the name of a class: its cost, and nothing else.
fn costs_as(class: CostClass, words: &[u8]) -> Result<(CostClass, u32), Why>
    ensures value { result ≡ costs_as class (words_of words.now) }
    ensures most { IfOk result (λ said. said.1 ≤ 1000000) }
{
    match next_word(words) {
        None => Err(Why::Number),
        Some(word) => match cost_of(word.text) {
            None => Err(Why::Number),
            Some(cost) => match next_word(word.rest) {
                None => Ok((class, cost)),
                Some(_) => Err(Why::Extra),
            },
        },
    }
}

/// What a line of a version says.
fn says(version: Version, name: &[u8], words: &[u8]) -> Result<(CostClass, u32), Why>
    ensures value { result ≡ says version (name.now ∷ words_of words.now) }
    ensures most { IfOk result (λ said. said.1 ≤ 1000000) }
{
    match classes::class_named(version, name) {
        None => Err(Why::Class),
        Some(class) => costs_as(class, words),
    }
}

/// Puts down the cost of a class, at the line of this number.
fn put(
    costs: &mut [u32; COUNT],
    number: u32,
    class: CostClass,
    cost: u32,
) -> Result<(), CycleRefusal>
    ensures fault { MatchResult result (λ _. fault_said costs.old number (Ok (class, cost)) ≡ None) (λ e. fault_said costs.old number (Ok (class, cost)) ≡ Some e) }
    ensures written { OnOk result (costs.new ≡ slice_set costs.old (place_of class) cost) }
{
    if cost == 0 {
        return Err(CycleRefusal::Zero { class, n: number });
    }
    if classes::cost_at(costs, class) != 0 {
        return Err(CycleRefusal::Twice { class, n: number });
    }
    let place = classes::place_of(class);
    if place < COUNT {
        costs[place] = cost;
    }
    Ok(())
}

/// The costs, where no class of the version is missing.
fn completed(version: Version, costs: [u32; COUNT]) -> Result<[u32; COUNT], CycleRefusal>
    requires most { All (λ cost. cost ≤ 1000000) costs }
    requires none { (class : CostClass) → count_of version ≤ place_of class → cost_at costs class ≡ 0 }
    ensures value { result ≡ completed version costs }
    ensures costs { IfOk result AreCosts }
{
    match classes::first_free(version, &costs) {
        None => Ok(costs),
        Some(class) => Err(CycleRefusal::Missing { class }),
    }
}

/// The costs in the lines behind the header of a version, in a text with so many lines before it.
pub fn body(version: Version, text: &[u8], before: u32) -> Result<[u32; COUNT], CycleRefusal>
    requires { before + length text.now < 2 ^ 32 }
    ensures value { result ≡ body_of version (rows_from (before + 1) (lines text.now)) }
    ensures costs { IfOk result AreCosts }
{
    let mut costs = [0; COUNT];
    let mut rest = text;
    let mut number = before;
    while let Some(row) = next_row(rest, number) {
        number = row.number;
        rest = row.after;
        match says(version, row.name, row.words) {
            Err(why) => return Err(CycleRefusal::Line { n: number, why }),
            Ok((class, cost)) => put(&mut costs, number, class, cost)?,
        }
    }
    completed(version, costs)
}
