//! Lines, their comments, their words and the numbers in them.
use line_text::*;

/// Texts with their first line and what follows it.
const LINES: [[&str; 3]; 7] = [
    ["a\nb", "a", "b"],
    ["a\r\nb", "a", "b"],
    ["a\r\r\n", "a\r", ""],
    ["a\r", "a\r", ""],
    ["\n\n", "", "\n"],
    ["\r\n", "", ""],
    ["a b\t# c\r\nd", "a b\t# c", "d"],
];

/// Lines with their first word and what follows it.
const WORDS: [[&str; 3]; 3] = [
    [" \ta b", "a", " b"],
    ["a,b\t c", "a,b", "\t c"],
    ["\u{e9}\r", "\u{e9}\r", ""],
];

/// Words with the number up to 2^62 - 1 that they stand for.
const NUMBERS: [(&str, Option<u64>); 9] = [
    ("0", Some(0)),
    (
        "00000000000000000000000000000000000000000000000000000000000009",
        Some(9),
    ),
    ("4611686018427387903", Some(4_611_686_018_427_387_903)),
    ("4611686018427387904", None),
    ("340282366920938463463374607431768211457", None),
    ("", None),
    ("+1", None),
    ("-1", None),
    ("1a", None),
];

/// Whether a piece has this text and leaves this rest.
fn is_piece(piece: Option<Piece>, text: &str, rest: &str) -> bool {
    match piece {
        Some(piece) => piece.text == text.as_bytes() && piece.rest == rest.as_bytes(),
        None => false,
    }
}

/// Whether comments end a line, and a line without one is whole.
fn comments_are_left_out() -> bool {
    uncommented(b"a b\t# c # d") == b"a b\t".as_slice() && uncommented(b"a b") == b"a b".as_slice()
}

/// Whether a blank is a space or a tab and no return.
fn blanks_are_two() -> bool {
    is_blank(b' ') && is_blank(b'\t') && !is_blank(b'\r')
}

/// Whether the greatest number of 64 bits is one, and the next isn't.
fn numbers_end_at_64_bits() -> bool {
    number_up_to(b"18446744073709551615", u64::MAX) == Some(u64::MAX)
        && number_up_to(b"18446744073709551616", u64::MAX).is_none()
}

#[test]
fn lines_without_returns_and_comments(rt: HostRuntime) {
    for [text, line, rest] in &LINES {
        let piece = next_line(text.as_bytes());
        assert!(rt; is_piece(piece, line, rest), "at {text:?}");
    }
    assert!(rt; next_line(b"").is_none() && comments_are_left_out());
}

#[test]
fn words_between_blanks(rt: HostRuntime) {
    for [line, word, rest] in &WORDS {
        let piece = next_word(line.as_bytes());
        assert!(rt; is_piece(piece, word, rest));
    }
    assert!(rt; next_word(b" \t ").is_none() && blanks_are_two());
}

#[test]
fn numbers_by_their_value(rt: HostRuntime) {
    for (word, number) in &NUMBERS {
        let got = number_up_to(word.as_bytes(), (1 << 62) - 1);
        assert!(rt; got == *number, "at {word}");
    }
    assert!(rt; numbers_end_at_64_bits());
}

#[test]
fn texts_cut_in_two(rt: HostRuntime) {
    assert!(rt; is_piece(cut_at(b"f+0+1", b'+'), "f", "0+1"));
    assert!(rt; cut_at(b"f-0", b'+').is_none());
}
