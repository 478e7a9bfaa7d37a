ghost use Rattle.std.specs.Prelude.{◌≡◌, ◌<◌, ◌≤◌, ◌==◌, [], ◌∷◌, length, position, MatchOption, IfSome};
ghost use Rattle.std.specs.List.{position_or_len};
ghost use Rattle.std.specs.Str.Lines.{lines, strip_carriage_return};
ghost use Rattle.line_text.specs.LineText.{uncommented};

use crate::Piece;
use crate::cutting::first_place;

/// Where a byte first stands, or the length where it doesn't.
fn place_of(text: &[u8], byte: u8) -> usize
    ensures value { result ≡ position_or_len (λ b. b == byte) text.now }
    ensures within { result ≤ length text.now }
{
    first_place(text, byte).unwrap_or(text.len())
}

/// A line that ended in LF, without the one CR right before it.
fn without_return(line: &[u8]) -> &[u8]
    ensures value { result.now ≡ strip_carriage_return line.now }
    ensures shorter { length result.now ≤ length line.now }
{
    if !line.is_empty() && line[line.len() - 1] == b'\r' {
        &line[..line.len() - 1]
    } else {
        line
    }
}

/// The first line of a text, and what follows it; None where the text is empty. The LF at a text's end may
/// be wanting, and a CR right before an LF isn't part of the line.
pub fn next_line(text: &[u8]) -> Option<Piece<'_>>
    ensures line { MatchOption result (text.now ≡ []) (λ piece. lines text.now ≡ piece.text.now ∷ lines piece.rest.now) }
    ensures shorter { MatchOption result (text.now ≡ []) (λ piece. length piece.rest.now < length text.now) }
    ensures within { IfSome result (λ piece. length piece.text.now ≤ length text.now) }
{
    if text.is_empty() {
        return None;
    }
    let end = place_of(text, b'\n');
    if end == text.len() {
        return Some(Piece { text, rest: &[] });
    }
    Some(Piece {
        text: without_return(&text[..end]),
        rest: text.split_at(end + 1).1,
    })
}

/// A line without its comment, which goes from the first `#` on.
pub fn uncommented(line: &[u8]) -> &[u8]
    ensures value { result.now ≡ uncommented line.now }
    ensures shorter { length result.now ≤ length line.now }
{
    &line[..place_of(line, b'#')]
}
