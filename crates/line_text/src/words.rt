ghost use Rattle.std.specs.Prelude.{◌≡◌, ◌≤◌, [], ◌∷◌, length, not, position, MatchOption};
ghost use Rattle.std.specs.List.{position_or_len};
ghost use Rattle.line_text.specs.LineText.{is_blank, unblanked, words_of};

use crate::Piece;

/// Whether a byte parts words: a space or a tab.
pub fn is_blank(b: u8) -> bool
    ensures { result ≡ is_blank b }
{
    b == b' ' || b == b'\t'
}

/// Where the first blank stands.
fn first_blank(line: &[u8]) -> Option<usize>
    ensures { result ≡ position is_blank line.now }
{
    line.iter().position(|b| is_blank(*b))
}

/// Where the first byte stands that is no blank.
fn first_of_word(line: &[u8]) -> Option<usize>
    ensures { result ≡ position (λ b. not (is_blank b)) line.now }
{
    line.iter().position(|b| !is_blank(*b))
}

/// A line without the blanks in front.
pub fn unblanked(line: &[u8]) -> &[u8]
    ensures value { result.now ≡ unblanked line.now }
    ensures shorter { length result.now ≤ length line.now }
{
    let start = first_of_word(line).unwrap_or(line.len());
    line.split_at(start).1
}

/// Where the first blank stands, or the length where there is none.
fn word_len(line: &[u8]) -> usize
    ensures value { result ≡ position_or_len is_blank line.now }
    ensures within { result ≤ length line.now }
{
    first_blank(line).unwrap_or(line.len())
}

/// The first word of a line without a comment, and what follows it; None where it has no word.
pub fn next_word(line: &[u8]) -> Option<Piece<'_>>
    ensures { MatchOption result (words_of line.now ≡ []) (λ piece. words_of line.now ≡ piece.text.now ∷ words_of piece.rest.now) }
{
    let line = unblanked(line);
    if line.is_empty() {
        return None;
    }
    let end = word_len(line);
    let (text, rest) = line.split_at(end);
    Some(Piece { text, rest })
}
