//! The rows of the command `bound`, but for those of worked programs.
use crate::calls::{Files, NEVER, files_of, files_with, report, says, table_with};
use std::alloc::Global;
use std::test::Fail;

/// Whether a call over these files that fails nothing on purpose answers this message and writes nothing.
fn refuses(alloc: Global, files: Files, message: &str) -> Result<bool, Fail> {
    says(alloc, "bound i c a", files, (NEVER, NEVER), message, "")
}

/// Whether a call over these files answers that all is bounded, and writes this text.
fn tells(alloc: Global, files: Files, text: &str) -> Result<bool, Fail> {
    says(
        alloc,
        "bound i c a",
        files,
        (NEVER, NEVER),
        "boundt: 0 Bounded",
        text,
    )
}

/// Straight code, and its bound where a jump costs three cycles and all else one.
const STRAIGHT: [(&str, u64); 3] = [
    ("11000001 90122005 81c3e008 01000000", 6),
    ("90022001 90120009 81c3e008 9e102000", 6),
    ("81c3e008 01000000 ffffffff ffffffff", 4),
];

/// Whether straight code has this bound.
fn is_straight(alloc: Global, code: &str, bound: u64) -> Result<bool, Fail> {
    let mut files = files_with(alloc, code, "root f\n")?;
    let cheap = String::from_utf8(files.table).ok().ok_or("no text")?;
    let dear = cheap.replace(alloc, "jump 1", "jump 3")?;
    files.table = Vec::from_slice(alloc, dear.as_bytes())?;
    let text = report(alloc, "f", bound)?;
    tells(alloc, files, text.as_str())
}

/// The one byte of the function's name, and what the report shows of it.
const NAMES: [(u8, &str); 7] = [
    (b'!', "!"),
    (b'~', "~"),
    (b' ', "\\20"),
    (b'\\', "\\5c"),
    (0x7f, "\\7f"),
    (0xc3, "\\c3"),
    (10, "\\0a"),
];

/// Whether a name of one byte is shown so.
fn is_shown(alloc: Global, byte: u8, shown: &str) -> Result<bool, Fail> {
    let mut files = files_of(alloc, "root 0x2000000")?;
    if let Some(name) = files.image.get_mut(93) {
        *name = byte;
    }
    let text = report(alloc, shown, 2)?;
    tells(alloc, files, text.as_str())
}

/// How many bytes of the image, what ends the table, and the message; the assertions are none.
const ORDER: [(usize, &str, &str); 10] = [
    (51, "annulled 1\n", "boundt: 3 Short need 52 have 51"),
    (0, "", "boundt: 3 Short need 52 have 0"),
    (255, "annulled 0\n", "boundt: 3 Short need 256 have 255"),
    (256, "", "boundt: 4 Missing class annulled"),
    (256, "annulled 0\n", "boundt: 4 Zero class annulled n 28"),
    (256, "annulled 1\nalu 1\n", "boundt: 4 Twice class alu n 29"),
    (256, "annulled 1 1\n", "boundt: 4 Line n 28 why Extra"),
    (256, "annulled 1000001\n", "boundt: 4 Line n 28 why Number"),
    (256, "unmodelled 1\n", "boundt: 4 Line n 28 why Class"),
    (
        256,
        "annulled 1\n",
        "boundt: 5 Line n 1 column 1 expected Keyword",
    ),
];

/// Whether the first of these that is wrong is refused.
fn is_in_order(alloc: Global, size: usize, lines: &str, message: &str) -> Result<bool, Fail> {
    let mut files = files_of(alloc, "roots f\n")?;
    files.image.truncate(size);
    files.table = table_with(alloc, lines)?;
    refuses(alloc, files, message)
}

/// The byte of the image that is damaged, and the message.
const DAMAGED: [(usize, u8, &str); 10] = [
    (0, 0, "boundt: 3 Magic"),
    (4, 2, "boundt: 3 Class got 2"),
    (5, 1, "boundt: 3 Order got 1"),
    (17, 3, "boundt: 3 Kind got 3"),
    (19, 43, "boundt: 3 Machine got 43"),
    (47, 41, "boundt: 3 HeaderSize got 41"),
    (159, 255, "boundt: 3 SectionOutside n 1"),
    (151, 2, "boundt: 3 Alignment n 1"),
    (215, 15, "boundt: 3 SymbolTable n 2"),
    (147, 2, "boundt: 5 NoName line 1"),
];

/// Whether a damaged image is refused so.
fn is_damaged(alloc: Global, place: usize, byte: u8, message: &str) -> Result<bool, Fail> {
    let mut files = files_of(alloc, "root f\n")?;
    if let Some(there) = files.image.get_mut(place) {
        *there = byte;
    }
    refuses(alloc, files, message)
}

/// Whether a file that is one byte too long is refused: that of this number, of these bytes.
fn is_too_long(alloc: Global, file: u32, message: &str) -> Result<bool, Fail> {
    let mut files = files_of(alloc, "roots f\n")?;
    match file {
        1 => files.image = vec![in alloc; 0u8; 16_777_217]?,
        2 => files.table = vec![in alloc; 0u8; 1_048_577]?,
        _ => files.assertions = vec![in alloc; 10u8; 1_048_577]?,
    }
    refuses(alloc, files, message)
}

/// Assertions of which the one root is the leaf.
const ROOTS: [&str; 3] = [
    "root f",
    "# the only one\n\n\troot f+0x0 # here\r\n",
    "root 0x02000000\n",
];

/// Assertions without a root.
const ROOTLESS: [&str; 4] = ["", "never f\n", "stub f time 5\n", "at f %o0 0..5\n"];

/// Assertions that are refused, and the message.
const REFUSED: [(&str, &str); 10] = [
    ("root f\nloop f repeats 3\n", "boundt: 5 Unmatched line 2"),
    (
        "root f\nat f %o0 0..5\nat f %o0 0..5\n",
        "boundt: 5 Conflict line 3 other 2",
    ),
    ("root f\nstub q time 1\n", "boundt: 5 NoName line 2"),
    ("root f g\n", "boundt: 5 Line n 1 column 8 expected End"),
    ("root\n", "boundt: 5 Line n 1 column 5 expected Place"),
    ("root f\nnever g\nnever h\n", "boundt: 5 NoName line 2"),
    ("root f+0x8\n", "boundt: 5 NotCode line 1 addr 02000008"),
    ("at f %o0 5..4\n", "boundt: 5 EmptyRange line 1"),
    (
        "# two\nroot f\nroot f+0x0\n",
        "boundt: 5 Conflict line 3 other 2",
    ),
    (
        "loop f+0x4 repeats 1\nloop f repeats 1\n",
        "boundt: 5 Unmatched line 1",
    ),
];

/// The words, the read that fails, and the message.
const CALLS: [(&str, u64, &str); 23] = [
    ("bound i c a", 0, "boundt: 6 ReadFault file 1"),
    ("bound i c a", 1, "boundt: 6 ReadFault file 1"),
    ("bound i c a", 2, "boundt: 6 ReadFault file 2"),
    ("bound i c a", 4, "boundt: 6 ReadFault file 3"),
    ("bound j c a", NEVER, "boundt: 6 ReadFault file 1"),
    ("bound i d a", NEVER, "boundt: 6 ReadFault file 2"),
    ("bound i c b", NEVER, "boundt: 6 ReadFault file 3"),
    ("bound i - a", NEVER, "boundt: 6 ReadFault file 2"),
    ("bound help c a", NEVER, "boundt: 6 ReadFault file 1"),
    ("bound -- -i c a", NEVER, "boundt: 6 ReadFault file 1"),
    ("bound -i c a", NEVER, "boundt: 2 Usage"),
    ("bound i c", NEVER, "boundt: 2 Usage"),
    ("bound a b", NEVER, "boundt: 2 Usage"),
    ("bound i c a b", NEVER, "boundt: 2 Usage"),
    ("bounds i c a", NEVER, "boundt: 2 Usage"),
    ("bound i c a --workers 0", NEVER, "boundt: 2 Usage"),
    ("bound i c a --workers 65", NEVER, "boundt: 2 Usage"),
    (
        "bound i c a --workers 1 --workers 1",
        NEVER,
        "boundt: 2 Usage",
    ),
    ("--workers 2 bound i c a", NEVER, "boundt: 2 Usage"),
    ("help", NEVER, "boundt: 2 Usage"),
    ("--help", NEVER, "boundt: 2 Usage"),
    ("bound -h", NEVER, "boundt: 2 Usage"),
    ("", NEVER, "boundt: 2 Usage"),
];

/// Words that are taken, the write that fails, the message, and how much is written.
const WRITES: [(&str, u64, &str, usize); 6] = [
    ("bound i c a", 0, "boundt: 7 WriteFault written 0", 0),
    ("bound i c a", 1, "boundt: 7 WriteFault written 16", 16),
    ("bound i c a", NEVER, "boundt: 0 Bounded", 81),
    ("bound --workers 64 i c a", NEVER, "boundt: 0 Bounded", 81),
    ("bound i c --workers=2 a", NEVER, "boundt: 0 Bounded", 81),
    ("bound --workers 2 -- i c a", NEVER, "boundt: 0 Bounded", 81),
];

/// Whether the report of the leaf is written so far.
fn is_written(
    alloc: Global,
    words: &str,
    write: u64,
    message: &str,
    written: usize,
) -> Result<bool, Fail> {
    let text = report(alloc, "f", 2)?;
    let part = text.as_str().get(..written).ok_or("a short report")?;
    says(
        alloc,
        words,
        files_of(alloc, "root f\n")?,
        (NEVER, write),
        message,
        part,
    )
}

#[test]
fn tells_straight_code(rt: HostRuntime) -> Result<(), Fail> {
    let alloc = rt.alloc();
    for (code, bound) in &STRAIGHT {
        assert!(rt; is_straight(alloc, code, *bound)?, "of {code}");
    }
    for (byte, shown) in &NAMES {
        assert!(rt; is_shown(alloc, *byte, shown)?, "of {shown}");
    }
    Ok(())
}

#[test]
fn refuses_in_order(rt: HostRuntime) -> Result<(), Fail> {
    let alloc = rt.alloc();
    for (size, lines, message) in &ORDER {
        assert!(rt; is_in_order(alloc, *size, lines, message)?, "at {message}");
    }
    for (place, byte, message) in &DAMAGED {
        assert!(rt; is_damaged(alloc, *place, *byte, message)?, "at {message}");
    }
    assert!(rt; is_too_long(alloc, 1, "boundt: 9 TooLong file 1 limit 16777216")?);
    assert!(rt; is_too_long(alloc, 2, "boundt: 9 TooLong file 2 limit 1048576")?);
    assert!(rt; is_too_long(alloc, 3, "boundt: 9 TooLong file 3 limit 1048576")?);
    Ok(())
}

#[test]
fn takes_assertions(rt: HostRuntime) -> Result<(), Fail> {
    let alloc = rt.alloc();
    let text = report(alloc, "f", 2)?;
    for root in &ROOTS {
        assert!(rt;
            tells(alloc, files_of(alloc, root)?, text.as_str())?,
            "of {root}"
        );
    }
    for none in &ROOTLESS {
        assert!(rt;
            tells(alloc, files_of(alloc, none)?, "boundt report 1\nend\n")?,
            "of {none}"
        );
    }
    for (assertions, message) in &REFUSED {
        assert!(rt;
            refuses(alloc, files_of(alloc, assertions)?, message)?,
            "of {assertions}"
        );
    }
    Ok(())
}

#[test]
fn takes_words(rt: HostRuntime) -> Result<(), Fail> {
    let alloc = rt.alloc();
    for (words, read, message) in &CALLS {
        let files = files_of(alloc, "root f\n")?;
        assert!(rt;
            says(alloc, words, files, (*read, NEVER), message, "")?,
            "of {words}"
        );
    }
    for (words, write, message, written) in &WRITES {
        assert!(rt;
            is_written(alloc, words, *write, message, *written)?,
            "of {words}"
        );
    }
    Ok(())
}
