ghost use Rattle.std.specs.Prelude.{◌≡◌, ◌+◌, ◌^◌, ◌<◌, ◌≤◌, false, not, [], ◌∷◌, length, position, MatchOption, IfSome};
ghost use Rattle.std.specs.List.{position_or_len};
ghost use Rattle.assert_lang.specs.Phrase.{is_comma, is_plain, head_of, phrase_from, tokens_from};

use line_text::{is_blank, unblanked};
use std::marker::Model;

/// A word of a line, and the column of its first byte.
#[derive(Clone, Copy, Debug)]
pub struct Token<'a> {
    pub word: &'a [u8],
    pub column: u32,
}

/// The words that are left of a line.
#[derive(Debug, Drop)]
pub struct Words<'a> {
    rest: &'a [u8],
    column: u32,
}

impl<'a> Model for Words<'a> {
    ghost use Rattle.std.specs.Prelude.{◌+◌, ◌^◌, ◌<◌, length};
    ghost use Rattle.assert_lang.specs.Phrase.{Phrase, phrase_from};

    ghost Value = { Phrase };

    ghost view = { λ words. phrase_from words.column words.rest.now };

    ghost invariant = { λ words. words.column + length words.rest.now < 2 ^ 32 };
}

/// Whether a byte is a comma, which is a word of its own.
fn is_comma(b: u8) -> bool
    ensures { result ≡ is_comma b }
{
    b == b','
}

/// Whether a byte parts no words.
fn is_plain(b: u8) -> bool
    ensures { result ≡ is_plain b }
{
    !is_blank(b) && !is_comma(b)
}

/// Where the first byte stands that parts words.
fn first_parting(bytes: &[u8]) -> Option<usize>
    ensures { result ≡ position (λ b. not (is_plain b)) bytes.now }
{
    bytes.iter().position(|b| !is_plain(*b))
}

/// How many bytes before that one, or all.
fn plain_len(bytes: &[u8]) -> usize
    ensures value { result ≡ position_or_len (λ b. not (is_plain b)) bytes.now }
    ensures within { result ≤ length bytes.now }
{
    first_parting(bytes).unwrap_or(bytes.len())
}

/// The length of the word at the head of some bytes.
fn head_len(line: &[u8]) -> usize
    ensures value { result ≡ length (head_of line.now) }
    ensures within { result ≤ length line.now }
{
    match line {
        [] => 0,
        [first, more @ ..] => if is_comma(*first) {
            1
        } else {
            1 + plain_len(more)
        },
    }
}

/// The first word of some bytes from a column on, and the bytes behind it; None where they have no word.
fn next_token(bytes: &[u8], column: u32) -> Option<(Token<'_>, &[u8])>
    requires { column + length bytes.now < 2 ^ 32 }
    ensures token { MatchOption result (tokens_from column false bytes.now ≡ [])
        (λ (token, rest). tokens_from column false bytes.now ≡ record { word = token.word.now; column = token.column } ∷ tokens_from (token.column + length token.word.now) false rest.now) }
    ensures total { IfSome result (λ (token, rest). token.column + length token.word.now + length rest.now ≡ column + length bytes.now) }
{
    let line = unblanked(bytes);
    if line.is_empty() {
        return None;
    }
    let column = column + (bytes.len() - line.len()) as u32;
    let (word, rest) = line.split_at(head_len(line));
    Some((Token { word, column }, rest))
}

impl<'a> Words<'a> {
    /// The words of a line without its comment.
    pub fn of(line: &'a [u8]) -> Words<'a>
        requires { length line.now + 1 < 2 ^ 32 }
        ensures { result ≡ phrase_from 1 line.now }
    {
        Words {
            rest: line,
            column: 1,
        }
    }

    /// The column past the line's last byte.
    pub fn end(&self) -> u32
        ensures { result ≡ self.now.end }
    {
        self.column + self.rest.len() as u32
    }

    /// Takes the next word.
    pub fn next(&mut self) -> Option<Token<'a>>
        ensures word { MatchOption result ((self.old.tokens ≡ []) × (self.new.tokens ≡ [])) (λ token. self.old.tokens ≡ record { word = token.word.now; column = token.column } ∷ self.new.tokens) }
        ensures end { self.new.end ≡ self.old.end }
    {
        match next_token(self.rest, self.column) {
            None => None,
            Some((token, rest)) => {
                self.rest = rest;
                self.column = token.column + token.word.len() as u32;
                Some(token)
            }
        }
    }
}
