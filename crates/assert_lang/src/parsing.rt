ghost use Rattle.std.specs.Prelude.{◌≡◌, ◌+◌, ◌-◌, ◌^◌, ◌<◌, ◌≤◌, false, List, [], ◌∷◌, length, MatchBool, MatchOption, MatchResult, IfSome, IfOk, All};
ghost use Rattle.std.specs.Str.Lines.{lines};
ghost use Rattle.assert_lang.specs.Bounds.{AssertsWithin};
ghost use Rattle.assert_lang.specs.Phrase.{Token, phrase_from, tokens_from};
ghost use Rattle.assert_lang.specs.Text.{assertion_of, assertions_of, rows_from, IsRefusalOf};

use crate::refusal::Fault;
use crate::statements::statement;
use crate::words::Words;
use crate::{AssertRefusal, Assertion, Assertions};
use line_text::{next_line, uncommented};
use std::alloc::Global;

/// The greatest number of statements.
const MOST: usize = 4096;

/// A line that has words.
#[derive(Clone, Copy, Debug)]
struct Row<'a> {
    /// Its number, from 1.
    number: u32,
    /// The line without its comment.
    line: &'a [u8],
    /// The text behind the line.
    after: &'a [u8],
}

/// Whether a line has a word.
fn has_words(line: &[u8]) -> bool
    requires { length line.now + 1 < 2 ^ 32 }
    ensures { MatchBool result ((token : Token) × (more : List Token) × (tokens_from 1 false line.now ≡ token ∷ more)) (tokens_from 1 false line.now ≡ []) }
{
    Words::of(line).next().is_some()
}

/// The next line that has words in a text with so many lines before it.
fn next_row(text: &[u8], before: u32) -> Option<Row<'_>>
    requires { before + length text.now < 2 ^ 32 - 1 }
    ensures row { MatchOption result (rows_from (before + 1) (lines text.now) ≡ [])
        (λ row. rows_from (before + 1) (lines text.now) ≡ record { number = row.number; phrase = phrase_from 1 row.line.now } ∷ rows_from (row.number + 1) (lines row.after.now)) }
    ensures later { IfSome result (λ row. before < row.number) }
    ensures shorter { IfSome result (λ row. row.number + length row.after.now ≤ before + length text.now) }
    ensures within { IfSome result (λ row. length row.line.now ≤ length text.now) }
{
    let mut rest = text;
    let mut number = before;
    while let Some(piece) = next_line(rest) {
        number += 1;
        rest = piece.rest;
        let line = uncommented(piece.text);
        if has_words(line) {
            return Some(Row {
                number,
                line,
                after: rest,
            });
        }
    }
    None
}

/// The assertion of a line.
fn assertion(alloc: Global, number: u32, line: &[u8]) -> Result<Assertion, AssertRefusal>
    requires { length line.now < 2 ^ 32 - 1 }
    ensures value { let defined = assertion_of (record { number = number; phrase = phrase_from 1 line.now }) in MatchResult result (λ assertion. defined ≡ Ok assertion) (IsRefusalOf defined) }
    ensures within { IfOk result AssertsWithin }
{
    let mut words = Words::of(line);
    match statement(alloc, &mut words) {
        Ok(body) => Ok(Assertion { line: number, body }),
        Err(Fault::Want) => Err(AssertRefusal::Want),
        Err(Fault::Misfit { column, expected }) => Err(AssertRefusal::Line {
            n: number,
            column,
            expected,
        }),
    }
}

/// Reads the assertions of a text.
///
/// Its lines end in LF, the last one maybe not, and a CR right before an LF is dropped. A comment goes from `#` to
/// the line's end, words are parted by spaces and tabs, a comma is a word of its own, and a line without a word
/// is skipped. Each further line is a statement:
///
/// ```text
/// statement = "root" place | "never" place | "at" place reg range
///   | ("jump" | "call") place "to" place { "," place }
///   | "loop" place "repeats" count | "stub" place "time" count
/// place = name | name "+" hex | hex        hex = "0x" 1 to 8 hexadecimal digits of either case
/// reg = "%g1".."%g7" "%o0".."%o7" "%l0".."%l7" "%i0".."%i7" "%sp" "%fp"
/// range = int ".." int        int = ["-"] digits, within 32 bits with sign        count = digits, 1 to 2^62 - 1
/// name = (letter | "_" | "." | "$") { letter | digit | "_" | "." | "$" }
/// ```
///
/// The first line that is no statement is refused with `Line`: its column, from 1, is that of the first byte of
/// the first word that doesn't fit, or one past the line's last byte before a comment where a word is wanting.
/// `Limit { count: 4097 }` comes at the 4,097th statement, unless an earlier line is none. `Want` comes only
/// where memory is refused.
#[tactic(auto, unfolding(crate::specs::Text::assertions_of))]
pub fn parse(alloc: Global, bytes: &[u8]) -> Result<Assertions, AssertRefusal>
    requires { length bytes.now < 2 ^ 32 - 1 }
    ensures value { MatchResult result (λ list. assertions_of bytes.now ≡ Ok list) (IsRefusalOf (assertions_of bytes.now)) }
    ensures within { IfOk result (All AssertsWithin) }
{
    let mut list = Vec::new(alloc);
    let mut rest = bytes;
    let mut number = 0;
    while let Some(row) = next_row(rest, number) {
        number = row.number;
        rest = row.after;
        let assertion = assertion(alloc, number, row.line)?;
        if list.len() == MOST {
            return Err(AssertRefusal::Limit { count: 4097 });
        }
        list.push(assertion)?;
    }
    Ok(Assertions::new(list))
}
