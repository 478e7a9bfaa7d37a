ghost use Rattle.std.specs.Prelude.{◌≡◌, ◌==◌, ◌<◌, length, position, MatchOption, IfSome};
ghost use Rattle.line_text.specs.LineText.{cut_at};

use crate::Piece;

/// Where a byte first stands.
pub fn first_place(text: &[u8], byte: u8) -> Option<usize>
    ensures value { result ≡ position (λ b. b == byte) text.now }
    ensures within { IfSome result (λ place. place < length text.now) }
{
    text.iter().position(|b| *b == byte)
}

/// What stands before the first of a byte, and what follows it; None where the byte stands nowhere.
pub fn cut_at(text: &[u8], byte: u8) -> Option<Piece<'_>>
    ensures { MatchOption result (cut_at byte text.now ≡ None) (λ piece. cut_at byte text.now ≡ Some (piece.text.now, piece.rest.now)) }
{
    match first_place(text, byte) {
        None => None,
        Some(place) => Some(Piece {
            text: text.split_at(place).0,
            rest: text.split_at(place + 1).1,
        }),
    }
}
